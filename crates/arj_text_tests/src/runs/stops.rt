// Runs in which a node stops or is not heard.

pub const STOPS: &str = "\
== exclusion
nodes 3
object 1 counter 0 servers 1 stores 2,3
run
begin A at 1
call A 1 add 1
settle
commit A
lose 4
settle
giveup A
settle
show 1
-- journal
1 began A top 1.1.1 -
2 granted 1 1.1.1 0.1.1 write
2 bound 1 1.1 1
2 sent 1 1 2 load
3 got 1
3 sent 2 2 1 loaded
3 got 2
3 active 1 1 1.1
3 lowered 1 1.1.1 0.1.1
3 granted 1 1.1.1 0.0.1 write
3 ok A 1 add 1 = done
4 committing A
4 sent 3 1 2 prepare
4 sent 4 1 3 prepare
5 dropped 4
6 got 3
6 prepared 2 1.1.1 store
6 sent 5 2 1 prepared
6 got 5
7 gaveup A 3
7 excluded A 1 3
7 granted 1 1.1.1 0.1.1 exclude
7 prepared 1 1.1.1 names
7 committed A
7 sent 6 1 2 told
7 sent 7 1 3 told
7 done 1 1.1.1 names commit
7 told 1 1.1.1 commit naming
7 told 1 1.1.1 commit server
8 got 6
8 done 2 1.1.1 store commit
8 sent 8 2 1 acked
8 got 7
8 got 8
9 entry 1 1 1 2
9 copy 2 1 1 1.1.1 0000000000000001
9 copy 3 1 0 0.0.0 0000000000000000
== no store left
nodes 3
object 1 counter 0 servers 1 stores 2,3
run
begin A at 1
call A 1 add 1
settle
commit A
giveup A
-- journal
1 began A top 1.1.1 -
2 granted 1 1.1.1 0.1.1 write
2 bound 1 1.1 1
2 sent 1 1 2 load
3 got 1
3 sent 2 2 1 loaded
3 got 2
3 active 1 1 1.1
3 lowered 1 1.1.1 0.1.1
3 granted 1 1.1.1 0.0.1 write
3 ok A 1 add 1 = done
4 committing A
4 sent 3 1 2 prepare
4 sent 4 1 3 prepare
5 gaveup A 2
5 gaveup A 3
5 excluded A 1 2
5 excluded A 1 3
5 aborted A nostores 1
5 sent 5 1 2 told
5 sent 6 1 3 told
5 told 1 1.1.1 abort naming
5 told 1 1.1.1 abort server
== stop at decision undone
nodes 3
object 1 counter 0 servers 1 stores 2,3
run
begin A at 1
call A 1 add 1
settle
commit A
stop 1 2 none
settle
restart 1
quiesce
show 1
-- journal
1 began A top 1.1.1 -
2 granted 1 1.1.1 0.1.1 write
2 bound 1 1.1 1
2 sent 1 1 2 load
3 got 1
3 sent 2 2 1 loaded
3 got 2
3 active 1 1 1.1
3 lowered 1 1.1.1 0.1.1
3 granted 1 1.1.1 0.0.1 write
3 ok A 1 add 1 = done
4 committing A
4 sent 3 1 2 prepare
4 sent 4 1 3 prepare
5 armed 1
6 got 3
6 prepared 2 1.1.1 store
6 sent 5 2 1 prepared
6 got 4
6 prepared 3 1.1.1 store
6 sent 6 3 1 prepared
6 got 5
6 got 6
6 halted 1
7 up 1 2
7 sent 7 1 2 hello
7 sent 8 1 3 hello
8 got 7
8 sent 9 2 1 query
8 got 8
8 sent 10 3 1 query
8 got 9
8 sent 11 1 2 told
8 got 10
8 sent 12 1 3 told
8 got 11
8 done 2 1.1.1 store abort
8 got 12
8 done 3 1.1.1 store abort
8 quiet yes
9 entry 1 0 1 2,3
9 copy 2 1 0 0.0.0 0000000000000000
9 copy 3 1 0 0.0.0 0000000000000000
== stop at decision done
nodes 3
object 1 counter 0 servers 1 stores 2,3
run
begin A at 1
call A 1 add 1
settle
commit A
stop 1 2 done
settle
restart 1
quiesce
show 1
-- journal
1 began A top 1.1.1 -
2 granted 1 1.1.1 0.1.1 write
2 bound 1 1.1 1
2 sent 1 1 2 load
3 got 1
3 sent 2 2 1 loaded
3 got 2
3 active 1 1 1.1
3 lowered 1 1.1.1 0.1.1
3 granted 1 1.1.1 0.0.1 write
3 ok A 1 add 1 = done
4 committing A
4 sent 3 1 2 prepare
4 sent 4 1 3 prepare
5 armed 1
6 got 3
6 prepared 2 1.1.1 store
6 sent 5 2 1 prepared
6 got 4
6 prepared 3 1.1.1 store
6 sent 6 3 1 prepared
6 got 5
6 got 6
6 halted 1
7 up 1 2
7 recovered 1 1.1.1
7 sent 7 1 2 told
7 sent 8 1 3 told
7 sent 9 1 2 hello
7 sent 10 1 3 hello
8 got 7
8 done 2 1.1.1 store commit
8 sent 11 2 1 acked
8 got 8
8 done 3 1.1.1 store commit
8 sent 12 3 1 acked
8 got 9
8 got 10
8 got 11
8 got 12
8 quiet yes
9 entry 1 0 1 2,3
9 copy 2 1 1 1.1.1 0000000000000001
9 copy 3 1 1 1.1.1 0000000000000001
== torn write
nodes 2
object 1 counter 0 servers 1 stores 2
run
begin A at 1
call A 1 add 1
settle
stop 2 2 torn 41524a
commit A
settle
restart 2
show 1
quiesce
-- journal
1 began A top 1.1.1 -
2 granted 1 1.1.1 0.1.1 write
2 bound 1 1.1 1
2 sent 1 1 2 load
3 got 1
3 sent 2 2 1 loaded
3 got 2
3 active 1 1 1.1
3 lowered 1 1.1.1 0.1.1
3 granted 1 1.1.1 0.0.1 write
3 ok A 1 add 1 = done
4 armed 2
5 committing A
5 sent 3 1 2 prepare
6 got 3
6 halted 2
7 up 2 2
7 sent 4 2 1 hello
8 entry 1 0 1 2
8 copy 2 1 0 0.0.0 0000000000000000
9 got 4
9 sent 5 1 2 prepare
9 got 5
9 prepared 2 1.1.1 store
9 sent 6 2 1 prepared
9 got 6
9 committed A
9 sent 7 1 2 told
9 told 1 1.1.1 commit naming
9 told 1 1.1.1 commit server
9 got 7
9 done 2 1.1.1 store commit
9 sent 8 2 1 acked
9 got 8
9 quiet yes
== lost lock
nodes 2
object 1 counter 0 servers 2 stores 1
run
begin A at 1
call A 1 get
settle
crash 2
restart 2
commit A
settle
-- journal
1 began A top 1.1.1 -
2 granted 1 1.1.1 0.1.1 write
2 bound 1 1.1 2
2 sent 1 1 2 activate
3 got 1
3 active 2 1 1.1
3 sent 2 2 1 activated
3 got 2
3 lowered 1 1.1.1 0.1.1
3 sent 3 1 2 invoke
3 got 3
3 granted 2 1.1.1 0.0.1 read
3 sent 4 2 1 invoked
3 got 4
3 ok A 1 get = 0
4 halted 2
5 up 2 2
5 sent 5 2 1 hello
6 committing A
6 sent 6 1 2 vote
7 got 5
7 got 6
7 sent 7 2 1 voted
7 got 7
7 aborted A changed 2 inc 1 2
7 sent 8 1 2 told
7 told 1 1.1.1 abort naming
7 got 8
== naming stopped
nodes 4
object 1 counter 0 servers 2 stores 3,4
run
begin A at 2
call A 1 add 1
settle
commit A
lose 8
settle
giveup A
deliver 10
crash 1
deliver 11
settle
restart 1
begin B at 3
call B 1 get
deliver 20
deliver 21
quiesce
show 1
-- journal
1 began A top 2.1.1 -
2 sent 1 2 1 bind
3 got 1
3 granted 1 2.1.1 0.1.1 write
3 bound 1 1.1 2
3 sent 2 1 2 bound
3 got 2
3 sent 3 2 3 load
3 got 3
3 sent 4 3 2 loaded
3 got 4
3 active 2 1 1.1
3 sent 5 2 1 record
3 got 5
3 lowered 1 2.1.1 0.1.1
3 sent 6 1 2 recorded
3 got 6
3 granted 2 2.1.1 0.0.1 write
3 ok A 1 add 1 = done
4 committing A
4 sent 7 2 3 prepare
4 sent 8 2 4 prepare
5 dropped 8
6 got 7
6 prepared 3 2.1.1 store
6 sent 9 3 2 prepared
6 got 9
7 gaveup A 4
7 excluded A 1 4
7 sent 10 2 1 confirm
8 got 10
8 granted 1 2.1.1 0.1.1 exclude
8 prepared 1 2.1.1 names
8 sent 11 1 2 confirmed
9 halted 1
10 got 11
10 committed A
10 sent 12 2 1 told
10 sent 13 2 3 told
10 sent 14 2 4 told
10 told 2 2.1.1 commit server
11 void 12
11 got 13
11 done 3 2.1.1 store commit
11 sent 15 3 2 acked
11 got 14
11 got 15
12 up 1 2
12 granted 1 2.1.1 0.1.1 exclude
12 sent 16 1 2 query
12 sent 17 1 2 hello
12 sent 18 1 3 hello
12 sent 19 1 4 hello
13 began B top 3.1.1 -
14 sent 20 3 1 bind
15 got 20
15 sent 21 1 3 bound
16 got 21
16 conflict B 2.1.1 exclude 1
17 got 16
17 sent 22 2 1 told
17 got 17
17 got 18
17 got 19
17 got 22
17 done 1 2.1.1 names commit
17 told 1 2.1.1 commit naming
17 sent 23 1 2 acked
17 got 23
17 quiet yes
18 entry 1 1 2 3
18 copy 3 1 1 2.1.1 0000000000000001
18 copy 4 1 0 0.0.0 0000000000000000
== lost load
nodes 2
object 1 counter 0 servers 1 stores 2
run
begin A at 1
call A 1 add 1
lose 1
settle
quiesce
-- journal
1 began A top 1.1.1 -
2 granted 1 1.1.1 0.1.1 write
2 bound 1 1.1 1
2 sent 1 1 2 load
3 dropped 1
5 sent 2 1 2 load
5 got 2
5 sent 3 2 1 loaded
5 got 3
5 active 1 1 1.1
5 lowered 1 1.1.1 0.1.1
5 granted 1 1.1.1 0.0.1 write
5 ok A 1 add 1 = done
5 quiet yes
";
