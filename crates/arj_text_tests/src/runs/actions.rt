// Runs with nested and concurrent actions, classes and limits.

pub const ACTIONS: &str = "\
== empty
nodes 1
object 1 counter 0 servers 1 stores 1
run
-- journal
== smallest
nodes 1
object 1 counter 0 servers 1 stores 1
run
begin A at 1
call A 1 add 5
commit A
begin B at 1
call B 1 get
commit B
-- journal
1 began A top 1.1.1 -
2 granted 1 1.1.1 0.1.1 write
2 bound 1 1.1 1
2 active 1 1 1.1
2 lowered 1 1.1.1 0.1.1
2 granted 1 1.1.1 0.0.1 write
2 ok A 1 add 5 = done
3 committing A
3 prepared 1 1.1.1 store
3 committed A
3 done 1 1.1.1 store commit
3 told 1 1.1.1 commit naming
3 told 1 1.1.1 commit server
4 began B top 1.1.2 -
5 granted 1 1.1.2 0.1.1 read
5 granted 1 1.1.2 0.0.1 read
5 ok B 1 get = 5
6 committing B
6 committed B
6 told 1 1.1.2 commit naming
6 told 1 1.1.2 commit server
== conflict
nodes 1
object 1 counter 0 servers 1 stores 1
run
begin A at 1
call A 1 add 2
begin B at 1
call B 1 add 3
commit A
call B 1 add 3
commit B
show 1
-- journal
1 began A top 1.1.1 -
2 granted 1 1.1.1 0.1.1 write
2 bound 1 1.1 1
2 active 1 1 1.1
2 lowered 1 1.1.1 0.1.1
2 granted 1 1.1.1 0.0.1 write
2 ok A 1 add 2 = done
3 began B top 1.1.2 -
4 granted 1 1.1.2 0.1.1 read
4 conflict B 1.1.1 write 1
5 committing A
5 prepared 1 1.1.1 store
5 committed A
5 done 1 1.1.1 store commit
5 told 1 1.1.1 commit naming
5 told 1 1.1.1 commit server
6 granted 1 1.1.2 0.0.1 write
6 ok B 1 add 3 = done
7 committing B
7 prepared 1 1.1.2 store
7 committed B
7 done 1 1.1.2 store commit
7 told 1 1.1.2 commit naming
7 told 1 1.1.2 commit server
8 entry 1 0 1 1
8 copy 1 1 2 1.1.2 0000000000000005
== types end
nodes 1
object 1 counter 18446744073709551615 servers 1 stores 1
run
begin A at 1
call A 1 add 1
commit A
show 1
-- journal
1 began A top 1.1.1 -
2 granted 1 1.1.1 0.1.1 write
2 bound 1 1.1 1
2 active 1 1 1.1
2 lowered 1 1.1.1 0.1.1
2 granted 1 1.1.1 0.0.1 write
2 ok A 1 add 1 = over
3 committing A
3 prepared 1 1.1.1 store
3 committed A
3 done 1 1.1.1 store commit
3 told 1 1.1.1 commit naming
3 told 1 1.1.1 commit server
4 entry 1 0 1 1
4 copy 1 1 1 1.1.1 ffffffffffffffff
== nested abort
nodes 1
object 1 counter 0 servers 1 stores 1
run
begin A at 1
call A 1 add 4
begin N in A
call N 1 add 5
abort N
call A 1 get
commit A
-- journal
1 began A top 1.1.1 -
2 granted 1 1.1.1 0.1.1 write
2 bound 1 1.1 1
2 active 1 1 1.1
2 lowered 1 1.1.1 0.1.1
2 granted 1 1.1.1 0.0.1 write
2 ok A 1 add 4 = done
3 began N nested 1.1.2 A
4 granted 1 1.1.2 0.0.1 write
4 ok N 1 add 5 = done
5 aborted N asked
5 told 1 1.1.2 abort server
6 ok A 1 get = 4
7 committing A
7 prepared 1 1.1.1 store
7 committed A
7 done 1 1.1.1 store commit
7 told 1 1.1.1 commit naming
7 told 1 1.1.1 commit server
== older image
nodes 1
object 1 counter 7 servers 1 stores 1
run
begin A at 1
begin C in A
call C 1 add 1
commit C
begin D in A
call D 1 add 1
commit D
abort A
begin B at 1
call B 1 get
-- journal
1 began A top 1.1.1 -
2 began C nested 1.1.2 A
3 granted 1 1.1.1 0.1.1 write
3 bound 1 1.1 1
3 active 1 1 1.1
3 lowered 1 1.1.1 0.1.1
3 granted 1 1.1.2 0.0.1 write
3 ok C 1 add 1 = done
4 committed C
4 told 1 1.1.2 commit server
5 began D nested 1.1.3 A
6 granted 1 1.1.3 0.0.1 write
6 ok D 1 add 1 = done
7 committed D
7 told 1 1.1.3 commit server
8 aborted A asked
8 told 1 1.1.1 abort naming
8 told 1 1.1.1 abort server
9 began B top 1.1.4 -
10 granted 1 1.1.4 0.1.1 read
10 granted 1 1.1.4 0.0.1 read
10 ok B 1 get = 7
== independent
nodes 1
object 1 counter 0 servers 1 stores 1
run
begin A at 1
call A 1 get
top T in A
call T 1 add 1
abort T
-- journal
1 began A top 1.1.1 -
2 granted 1 1.1.1 0.1.1 write
2 bound 1 1.1 1
2 active 1 1 1.1
2 lowered 1 1.1.1 0.1.1
2 granted 1 1.1.1 0.0.1 read
2 ok A 1 get = 0
3 began T independent 1.1.2 A
4 granted 1 1.1.2 0.1.1 read
4 conflict T 1.1.1 read 1
5 aborted T asked
5 told 1 1.1.2 abort naming
== serializing
nodes 1
object 1 counter 0 servers 1 stores 1
run
serial S at 1
begin C in S
call C 1 add 1
commit C
begin B at 1
call B 1 get
begin D in S
call D 1 add 1
commit D
abort S
call B 1 get
-- journal
1 began S serial 1.1.1 -
2 began C constituent 1.1.2 S
3 granted 1 1.1.2 0.1.1 write
3 bound 1 1.1 1
3 active 1 1 1.1
3 lowered 1 1.1.2 0.1.1
3 granted 1 1.1.2 0.0.1 write
3 ok C 1 add 1 = done
4 committing C
4 prepared 1 1.1.2 store
4 committed C
4 done 1 1.1.2 store commit
4 told 1 1.1.2 commit naming
4 told 1 1.1.2 commit server
5 began B top 1.1.3 -
6 granted 1 1.1.3 0.1.1 read
6 conflict B 1.1.1 write 1
7 began D constituent 1.1.4 S
8 granted 1 1.1.4 0.0.1 write
8 ok D 1 add 1 = done
9 committing D
9 prepared 1 1.1.4 store
9 committed D
9 done 1 1.1.4 store commit
9 told 1 1.1.4 commit server
10 aborted S asked
10 told 1 1.1.1 abort naming
10 told 1 1.1.1 abort server
11 granted 1 1.1.3 0.0.1 read
11 ok B 1 get = 2
== repeat
nodes 2
object 1 counter 0 servers 2 stores 1
run
begin A at 1
call A 1 add 5
deliver 1
deliver 2
deliver 3
deliver 3
deliver 4
commit A
settle
show 1
-- journal
1 began A top 1.1.1 -
2 granted 1 1.1.1 0.1.1 write
2 bound 1 1.1 2
2 sent 1 1 2 activate
3 got 1
3 active 2 1 1.1
3 sent 2 2 1 activated
4 got 2
4 lowered 1 1.1.1 0.1.1
4 sent 3 1 2 invoke
5 got 3
5 granted 2 1.1.1 0.0.1 write
5 sent 4 2 1 invoked
6 got 3
6 sent 5 2 1 invoked
7 got 4
7 ok A 1 add 5 = done
8 committing A
8 sent 6 1 2 vote
9 void 5
9 got 6
9 sent 7 2 1 voted
9 got 7
9 prepared 1 1.1.1 store
9 committed A
9 sent 8 1 2 told
9 done 1 1.1.1 store commit
9 told 1 1.1.1 commit naming
9 got 8
9 told 2 1.1.1 commit server
9 sent 9 2 1 acked
9 got 9
10 entry 1 0 2 1
10 copy 1 1 1 1.1.1 0000000000000005
== many actions
nodes 1
run
begin A at 1
begin N2 in A
begin N3 in A
begin N4 in A
begin N5 in A
begin N6 in A
begin N7 in A
begin N8 in A
begin N9 in A
begin N10 in A
begin N11 in A
begin N12 in A
begin N13 in A
begin N14 in A
begin N15 in A
begin N16 in A
begin N17 in A
begin N18 in A
begin N19 in A
begin N20 in A
begin N21 in A
begin N22 in A
begin N23 in A
begin N24 in A
begin N25 in A
begin N26 in A
begin N27 in A
begin N28 in A
begin N29 in A
begin N30 in A
begin N31 in A
begin N32 in A
begin N33 in A
begin N34 in A
begin N35 in A
begin N36 in A
begin N37 in A
begin N38 in A
begin N39 in A
begin N40 in A
begin N41 in A
begin N42 in A
begin N43 in A
begin N44 in A
begin N45 in A
begin N46 in A
begin N47 in A
begin N48 in A
begin N49 in A
begin N50 in A
begin N51 in A
begin N52 in A
begin N53 in A
begin N54 in A
begin N55 in A
begin N56 in A
begin N57 in A
begin N58 in A
begin N59 in A
begin N60 in A
begin N61 in A
begin N62 in A
begin N63 in A
begin N64 in A
begin N65 in A
begin B at 1
-- journal
1 began A top 1.1.1 -
2 began N2 nested 1.1.2 A
3 began N3 nested 1.1.3 A
4 began N4 nested 1.1.4 A
5 began N5 nested 1.1.5 A
6 began N6 nested 1.1.6 A
7 began N7 nested 1.1.7 A
8 began N8 nested 1.1.8 A
9 began N9 nested 1.1.9 A
10 began N10 nested 1.1.10 A
11 began N11 nested 1.1.11 A
12 began N12 nested 1.1.12 A
13 began N13 nested 1.1.13 A
14 began N14 nested 1.1.14 A
15 began N15 nested 1.1.15 A
16 began N16 nested 1.1.16 A
17 began N17 nested 1.1.17 A
18 began N18 nested 1.1.18 A
19 began N19 nested 1.1.19 A
20 began N20 nested 1.1.20 A
21 began N21 nested 1.1.21 A
22 began N22 nested 1.1.22 A
23 began N23 nested 1.1.23 A
24 began N24 nested 1.1.24 A
25 began N25 nested 1.1.25 A
26 began N26 nested 1.1.26 A
27 began N27 nested 1.1.27 A
28 began N28 nested 1.1.28 A
29 began N29 nested 1.1.29 A
30 began N30 nested 1.1.30 A
31 began N31 nested 1.1.31 A
32 began N32 nested 1.1.32 A
33 began N33 nested 1.1.33 A
34 began N34 nested 1.1.34 A
35 began N35 nested 1.1.35 A
36 began N36 nested 1.1.36 A
37 began N37 nested 1.1.37 A
38 began N38 nested 1.1.38 A
39 began N39 nested 1.1.39 A
40 began N40 nested 1.1.40 A
41 began N41 nested 1.1.41 A
42 began N42 nested 1.1.42 A
43 began N43 nested 1.1.43 A
44 began N44 nested 1.1.44 A
45 began N45 nested 1.1.45 A
46 began N46 nested 1.1.46 A
47 began N47 nested 1.1.47 A
48 began N48 nested 1.1.48 A
49 began N49 nested 1.1.49 A
50 began N50 nested 1.1.50 A
51 began N51 nested 1.1.51 A
52 began N52 nested 1.1.52 A
53 began N53 nested 1.1.53 A
54 began N54 nested 1.1.54 A
55 began N55 nested 1.1.55 A
56 began N56 nested 1.1.56 A
57 began N57 nested 1.1.57 A
58 began N58 nested 1.1.58 A
59 began N59 nested 1.1.59 A
60 began N60 nested 1.1.60 A
61 began N61 nested 1.1.61 A
62 began N62 nested 1.1.62 A
63 began N63 nested 1.1.63 A
64 began N64 nested 1.1.64 A
65 refused 16
66 began B top 1.1.65 -
== refusals
nodes 1
run
deliver 0
deliver 1
begin A at 1
commit A
call A 1 get
begin B at 1
begin C2 in B
begin C3 in C2
begin C4 in C3
begin C5 in C4
begin C6 in C5
begin C7 in C6
begin C8 in C7
begin C9 in C8
begin C10 in C9
begin C11 in C10
begin C12 in C11
begin C13 in C12
begin C14 in C13
begin C15 in C14
begin C16 in C15
begin C17 in C16
call C16 1 get
commit B
junk 1 140200000003
junk 1 ff
deliver last
restart 1
crash 2
crash 1
commit B
begin B at 1
giveup Z
restart 1
serial S at 1
call S 1 get
top T in S
giveup S
begin S at 1
-- journal
1 refused 17
2 refused 17
3 began A top 1.1.1 -
4 committing A
4 committed A
5 refused 6
6 began B top 1.1.2 -
7 began C2 nested 1.1.3 B
8 began C3 nested 1.1.4 C2
9 began C4 nested 1.1.5 C3
10 began C5 nested 1.1.6 C4
11 began C6 nested 1.1.7 C5
12 began C7 nested 1.1.8 C6
13 began C8 nested 1.1.9 C7
14 began C9 nested 1.1.10 C8
15 began C10 nested 1.1.11 C9
16 began C11 nested 1.1.12 C10
17 began C12 nested 1.1.13 C11
18 began C13 nested 1.1.14 C12
19 began C14 nested 1.1.15 C13
20 began C15 nested 1.1.16 C14
21 began C16 nested 1.1.17 C15
22 refused 15
23 refused 13
24 refused 9
25 refused 18
26 sent 1 0 1 junk
27 void 1
28 refused 3
29 refused 1
30 halted 1
31 refused 6
32 refused 2
33 refused 5
34 up 1 2
35 began S serial 1.2.1 -
36 refused 11
37 refused 10
38 refused 8
39 refused 4
== line just fits
nodes 1
object 1 counter 0 servers 1 stores 1
run
begin A at 1
begin B at 1
begin C at 1
#xxxxxxxxxxxxxxxxxxxxxxxxxxxxxxxxxxxxxxxxxxxxxxxxxxxxxxxxxxxxxxxxxxxxxxxxxxxxxxxxxxxxxxxxxxxxxxxxxxxxxxxxxxxxxxxxxxxxxxxxxxxxxxxxxxxxxxxxxxxxxxxxxxxxxxxxxxxxxxxxxxxxxxxxxxxxxxxxxxxxxxxxxxxxxxxxxxxxxxx
-- journal
1 began A top 1.1.1 -
2 began B top 1.1.2 -
3 began C top 1.1.3 -
== no input
-- journal
0 bad 1
== sibling waits
nodes 3
object 1 counter 0 servers 2,3 stores 1
run
begin A at 1
begin N in A
begin M in A
call N 1 add 1
deliver 1
deliver 2
call M 1 get
giveup M
abort M
begin K in A
call K 1 add 1
settle
-- journal
1 began A top 1.1.1 -
2 began N nested 1.1.2 A
3 began M nested 1.1.3 A
4 granted 1 1.1.1 0.1.1 write
4 bound 1 1.1 2
4 sent 1 1 2 activate
5 got 1
5 active 2 1 1.1
5 sent 2 2 1 activated
6 got 2
6 lowered 1 1.1.1 0.1.1
6 sent 3 1 2 invoke
7 sent 4 1 2 invoke
8 gaveup M 2
8 lost M 2
9 aborted M asked
9 sent 5 1 2 told
10 began K nested 1.1.4 A
11 sent 6 1 2 invoke
12 got 3
12 granted 2 1.1.2 0.0.1 write
12 sent 7 2 1 invoked
12 got 4
12 sent 8 2 1 invoked
12 got 5
12 got 6
12 sent 9 2 1 invoked
12 got 7
12 ok N 1 add 1 = done
12 void 8
12 got 9
12 conflict K 1.1.2 write 2
== serializing waits for records
nodes 2
object 1 counter 0 servers 2 stores 1
run
serial S at 1
begin C in S
call C 1 add 5
settle
commit C
deliver 5
deliver 6
lose 7
abort S
quiesce
begin B at 1
call B 1 get
settle
-- journal
1 began S serial 1.1.1 -
2 began C constituent 1.1.2 S
3 granted 1 1.1.2 0.1.1 write
3 bound 1 1.1 2
3 sent 1 1 2 activate
4 got 1
4 active 2 1 1.1
4 sent 2 2 1 activated
4 got 2
4 lowered 1 1.1.2 0.1.1
4 sent 3 1 2 invoke
4 got 3
4 granted 2 1.1.2 0.0.1 write
4 sent 4 2 1 invoked
4 got 4
4 ok C 1 add 5 = done
5 committing C
5 sent 5 1 2 vote
6 got 5
6 sent 6 2 1 voted
7 got 6
7 prepared 1 1.1.2 store
7 committed C
7 sent 7 1 2 told
7 done 1 1.1.2 store commit
7 told 1 1.1.2 commit naming
8 dropped 7
9 aborted S asked
10 sent 8 1 2 told
10 sent 9 2 1 query
10 got 8
10 told 2 1.1.2 commit server
10 sent 10 2 1 acked
10 got 9
10 sent 11 1 2 told
10 got 10
10 sent 12 1 2 told
10 told 1 1.1.1 abort naming
10 got 11
10 sent 13 2 1 acked
10 got 12
10 told 2 1.1.1 abort server
10 void 13
10 quiet yes
11 began B top 1.1.3 -
12 granted 1 1.1.3 0.1.1 read
12 sent 14 1 2 invoke
13 got 14
13 granted 2 1.1.3 0.0.1 read
13 sent 15 2 1 invoked
13 got 15
13 ok B 1 get = 5
== seven commits
nodes 1
object 1 counter 0 servers 1 stores 1
run
begin A1 at 1
call A1 1 add 1
commit A1
begin A2 at 1
call A2 1 add 1
commit A2
begin A3 at 1
call A3 1 add 1
commit A3
begin A4 at 1
call A4 1 add 1
commit A4
begin A5 at 1
call A5 1 add 1
commit A5
begin A6 at 1
call A6 1 add 1
commit A6
begin A7 at 1
call A7 1 add 1
commit A7
-- journal
1 began A1 top 1.1.1 -
2 granted 1 1.1.1 0.1.1 write
2 bound 1 1.1 1
2 active 1 1 1.1
2 lowered 1 1.1.1 0.1.1
2 granted 1 1.1.1 0.0.1 write
2 ok A1 1 add 1 = done
3 committing A1
3 prepared 1 1.1.1 store
3 committed A1
3 done 1 1.1.1 store commit
3 told 1 1.1.1 commit naming
3 told 1 1.1.1 commit server
4 began A2 top 1.1.2 -
5 granted 1 1.1.2 0.1.1 read
5 granted 1 1.1.2 0.0.1 write
5 ok A2 1 add 1 = done
6 committing A2
6 prepared 1 1.1.2 store
6 committed A2
6 done 1 1.1.2 store commit
6 told 1 1.1.2 commit naming
6 told 1 1.1.2 commit server
7 began A3 top 1.1.3 -
8 granted 1 1.1.3 0.1.1 read
8 granted 1 1.1.3 0.0.1 write
8 ok A3 1 add 1 = done
9 committing A3
9 prepared 1 1.1.3 store
9 committed A3
9 done 1 1.1.3 store commit
9 told 1 1.1.3 commit naming
9 told 1 1.1.3 commit server
10 began A4 top 1.1.4 -
11 granted 1 1.1.4 0.1.1 read
11 granted 1 1.1.4 0.0.1 write
11 ok A4 1 add 1 = done
12 committing A4
12 prepared 1 1.1.4 store
12 committed A4
12 done 1 1.1.4 store commit
12 told 1 1.1.4 commit naming
12 told 1 1.1.4 commit server
13 began A5 top 1.1.5 -
14 granted 1 1.1.5 0.1.1 read
14 granted 1 1.1.5 0.0.1 write
14 ok A5 1 add 1 = done
15 committing A5
15 prepared 1 1.1.5 store
15 committed A5
15 done 1 1.1.5 store commit
15 told 1 1.1.5 commit naming
15 told 1 1.1.5 commit server
16 began A6 top 1.1.6 -
17 granted 1 1.1.6 0.1.1 read
17 granted 1 1.1.6 0.0.1 write
17 ok A6 1 add 1 = done
18 committing A6
18 prepared 1 1.1.6 store
18 committed A6
18 done 1 1.1.6 store commit
18 told 1 1.1.6 commit naming
18 told 1 1.1.6 commit server
19 began A7 top 1.1.7 -
20 granted 1 1.1.7 0.1.1 read
20 granted 1 1.1.7 0.0.1 write
20 ok A7 1 add 1 = done
21 committing A7
21 prepared 1 1.1.7 store
21 committed A7
21 done 1 1.1.7 store commit
21 told 1 1.1.7 commit naming
21 told 1 1.1.7 commit server
";
