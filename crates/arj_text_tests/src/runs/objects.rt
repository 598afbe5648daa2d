// Runs with copies of objects, naming and frames.

pub const OBJECTS: &str = "\
== rebinding
nodes 3
object 1 counter 0 servers 2,3 stores 1
run
begin A at 1
begin N in A
call N 1 add 1
call A 1 get
deliver 1
deliver 2
lose 3
giveup N
call N 1 get
commit N
begin M in A
call M 1 push 1
call M 1 add 1
settle
commit M
commit A
settle
-- journal
1 began A top 1.1.1 -
2 began N nested 1.1.2 A
3 granted 1 1.1.1 0.1.1 write
3 bound 1 1.1 2
3 sent 1 1 2 activate
4 refused 7
5 got 1
5 active 2 1 1.1
5 sent 2 2 1 activated
6 got 2
6 lowered 1 1.1.1 0.1.1
6 sent 3 1 2 invoke
7 dropped 3
8 gaveup N 2
8 lost N 2
9 refused 12
10 aborted N doomed
10 sent 4 1 2 told
11 began M nested 1.1.3 A
12 refused 14
13 granted 1 1.1.1 0.1.1 write
13 bound 1 1.2 3
13 sent 5 1 3 activate
14 got 4
14 got 5
14 active 3 1 1.2
14 sent 6 3 1 activated
14 got 6
14 lowered 1 1.1.1 0.1.1
14 sent 7 1 3 invoke
14 got 7
14 granted 3 1.1.3 0.0.1 write
14 sent 8 3 1 invoked
14 got 8
14 ok M 1 add 1 = done
15 committed M
15 sent 9 1 3 told
16 committing A
16 sent 10 1 3 vote
17 got 9
17 told 3 1.1.3 commit server
17 got 10
17 sent 11 3 1 voted
17 got 11
17 prepared 1 1.1.1 store
17 committed A
17 sent 12 1 2 told
17 sent 13 1 3 told
17 done 1 1.1.1 store commit
17 told 1 1.1.1 commit naming
17 got 12
17 got 13
17 told 3 1.1.1 commit server
17 sent 14 3 1 acked
17 got 14
== old frames
nodes 2
object 1 counter 0 servers 1 stores 2
run
begin A at 1
call A 1 add 1
settle
commit A
settle
deliver 3
begin B at 1
call B 1 add 1
commit B
settle
deliver 3
deliver 5
settle
show 1
-- journal
1 began A top 1.1.1 -
2 granted 1 1.1.1 0.1.1 write
2 bound 1 1.1 1
2 sent 1 1 2 load
3 got 1
3 sent 2 2 1 loaded
3 got 2
3 active 1 1 1.1
3 lowered 1 1.1.1 0.1.1
3 granted 1 1.1.1 0.0.1 write
3 ok A 1 add 1 = done
4 committing A
4 sent 3 1 2 prepare
5 got 3
5 prepared 2 1.1.1 store
5 sent 4 2 1 prepared
5 got 4
5 committed A
5 sent 5 1 2 told
5 told 1 1.1.1 commit naming
5 told 1 1.1.1 commit server
5 got 5
5 done 2 1.1.1 store commit
5 sent 6 2 1 acked
5 got 6
6 void 3
7 began B top 1.1.2 -
8 granted 1 1.1.2 0.1.1 read
8 granted 1 1.1.2 0.0.1 write
8 ok B 1 add 1 = done
9 committing B
9 sent 7 1 2 prepare
10 got 7
10 prepared 2 1.1.2 store
10 sent 8 2 1 prepared
10 got 8
10 committed B
10 sent 9 1 2 told
10 told 1 1.1.2 commit naming
10 told 1 1.1.2 commit server
10 got 9
10 done 2 1.1.2 store commit
10 sent 10 2 1 acked
10 got 10
11 got 3
11 sent 11 2 1 prepared
12 got 5
12 sent 12 2 1 acked
13 void 11
13 void 12
14 entry 1 0 1 2
14 copy 2 1 2 1.1.2 0000000000000002
== inclusion
nodes 3
object 1 counter 0 servers 1 stores 2,3
run
begin A at 1
call A 1 add 1
settle
commit A
lose 4
settle
giveup A
settle
show 1
begin I at 1
include I 1 3
settle
commit I
settle
show 1
begin J at 1
include J 1 3
settle
commit J
settle
-- journal
1 began A top 1.1.1 -
2 granted 1 1.1.1 0.1.1 write
2 bound 1 1.1 1
2 sent 1 1 2 load
3 got 1
3 sent 2 2 1 loaded
3 got 2
3 active 1 1 1.1
3 lowered 1 1.1.1 0.1.1
3 granted 1 1.1.1 0.0.1 write
3 ok A 1 add 1 = done
4 committing A
4 sent 3 1 2 prepare
4 sent 4 1 3 prepare
5 dropped 4
6 got 3
6 prepared 2 1.1.1 store
6 sent 5 2 1 prepared
6 got 5
7 gaveup A 3
7 excluded A 1 3
7 granted 1 1.1.1 0.1.1 exclude
7 prepared 1 1.1.1 names
7 committed A
7 sent 6 1 2 told
7 sent 7 1 3 told
7 done 1 1.1.1 names commit
7 told 1 1.1.1 commit naming
7 told 1 1.1.1 commit server
8 got 6
8 done 2 1.1.1 store commit
8 sent 8 2 1 acked
8 got 7
8 got 8
9 entry 1 1 1 2
9 copy 2 1 1 1.1.1 0000000000000001
9 copy 3 1 0 0.0.0 0000000000000000
10 began I top 1.1.2 -
11 granted 1 1.1.2 0.1.1 write
11 sent 9 1 2 load
12 got 9
12 sent 10 2 1 loaded
12 got 10
12 includes I 1 3
13 committing I
13 sent 11 1 3 prepare
14 got 11
14 prepared 3 1.1.2 store
14 sent 12 3 1 prepared
14 got 12
14 prepared 1 1.1.2 names
14 committed I
14 sent 13 1 2 told
14 sent 14 1 3 told
14 done 1 1.1.2 names commit
14 told 1 1.1.2 commit naming
14 got 13
14 got 14
14 done 3 1.1.2 store commit
14 sent 15 3 1 acked
14 got 15
15 entry 1 2 1 2,3
15 copy 2 1 1 1.1.1 0000000000000001
15 copy 3 1 1 1.1.1 0000000000000001
16 began J top 1.1.3 -
17 granted 1 1.1.3 0.1.1 write
17 sent 16 1 2 load
18 got 16
18 sent 17 2 1 loaded
18 got 17
18 includes J 1 3
19 committing J
19 sent 18 1 3 prepare
20 got 18
20 prepared 3 1.1.3 store
20 sent 19 3 1 prepared
20 got 19
20 aborted J listed 1 3
20 sent 20 1 2 told
20 sent 21 1 3 told
20 told 1 1.1.3 abort naming
20 got 20
20 got 21
20 done 3 1.1.3 store abort
== many objects
nodes 1
object 1 counter 0 servers 1 stores 1
object 2 counter 0 servers 1 stores 1
object 3 counter 0 servers 1 stores 1
object 4 counter 0 servers 1 stores 1
object 5 counter 0 servers 1 stores 1
object 6 counter 0 servers 1 stores 1
object 7 counter 0 servers 1 stores 1
object 8 counter 0 servers 1 stores 1
object 9 counter 0 servers 1 stores 1
object 10 counter 0 servers 1 stores 1
object 11 counter 0 servers 1 stores 1
object 12 counter 0 servers 1 stores 1
object 13 counter 0 servers 1 stores 1
object 14 counter 0 servers 1 stores 1
object 15 counter 0 servers 1 stores 1
object 16 counter 0 servers 1 stores 1
object 17 counter 0 servers 1 stores 1
run
begin A at 1
call A 1 get
call A 2 get
call A 3 get
call A 4 get
call A 5 get
call A 6 get
call A 7 get
call A 8 get
call A 9 get
call A 10 get
call A 11 get
call A 12 get
call A 13 get
call A 14 get
call A 15 get
call A 16 get
call A 17 get
-- journal
1 began A top 1.1.1 -
2 granted 1 1.1.1 0.1.1 write
2 bound 1 1.1 1
2 active 1 1 1.1
2 lowered 1 1.1.1 0.1.1
2 granted 1 1.1.1 0.0.1 read
2 ok A 1 get = 0
3 granted 1 1.1.1 0.1.2 write
3 bound 2 1.2 1
3 active 1 2 1.2
3 lowered 1 1.1.1 0.1.2
3 granted 1 1.1.1 0.0.2 read
3 ok A 2 get = 0
4 granted 1 1.1.1 0.1.3 write
4 bound 3 1.3 1
4 active 1 3 1.3
4 lowered 1 1.1.1 0.1.3
4 granted 1 1.1.1 0.0.3 read
4 ok A 3 get = 0
5 granted 1 1.1.1 0.1.4 write
5 bound 4 1.4 1
5 active 1 4 1.4
5 lowered 1 1.1.1 0.1.4
5 granted 1 1.1.1 0.0.4 read
5 ok A 4 get = 0
6 granted 1 1.1.1 0.1.5 write
6 bound 5 1.5 1
6 active 1 5 1.5
6 lowered 1 1.1.1 0.1.5
6 granted 1 1.1.1 0.0.5 read
6 ok A 5 get = 0
7 granted 1 1.1.1 0.1.6 write
7 bound 6 1.6 1
7 active 1 6 1.6
7 lowered 1 1.1.1 0.1.6
7 granted 1 1.1.1 0.0.6 read
7 ok A 6 get = 0
8 granted 1 1.1.1 0.1.7 write
8 bound 7 1.7 1
8 active 1 7 1.7
8 lowered 1 1.1.1 0.1.7
8 granted 1 1.1.1 0.0.7 read
8 ok A 7 get = 0
9 granted 1 1.1.1 0.1.8 write
9 bound 8 1.8 1
9 active 1 8 1.8
9 lowered 1 1.1.1 0.1.8
9 granted 1 1.1.1 0.0.8 read
9 ok A 8 get = 0
10 granted 1 1.1.1 0.1.9 write
10 bound 9 1.9 1
10 active 1 9 1.9
10 lowered 1 1.1.1 0.1.9
10 granted 1 1.1.1 0.0.9 read
10 ok A 9 get = 0
11 granted 1 1.1.1 0.1.10 write
11 bound 10 1.10 1
11 active 1 10 1.10
11 lowered 1 1.1.1 0.1.10
11 granted 1 1.1.1 0.0.10 read
11 ok A 10 get = 0
12 granted 1 1.1.1 0.1.11 write
12 bound 11 1.11 1
12 active 1 11 1.11
12 lowered 1 1.1.1 0.1.11
12 granted 1 1.1.1 0.0.11 read
12 ok A 11 get = 0
13 granted 1 1.1.1 0.1.12 write
13 bound 12 1.12 1
13 active 1 12 1.12
13 lowered 1 1.1.1 0.1.12
13 granted 1 1.1.1 0.0.12 read
13 ok A 12 get = 0
14 granted 1 1.1.1 0.1.13 write
14 bound 13 1.13 1
14 active 1 13 1.13
14 lowered 1 1.1.1 0.1.13
14 granted 1 1.1.1 0.0.13 read
14 ok A 13 get = 0
15 granted 1 1.1.1 0.1.14 write
15 bound 14 1.14 1
15 active 1 14 1.14
15 lowered 1 1.1.1 0.1.14
15 granted 1 1.1.1 0.0.14 read
15 ok A 14 get = 0
16 granted 1 1.1.1 0.1.15 write
16 bound 15 1.15 1
16 active 1 15 1.15
16 lowered 1 1.1.1 0.1.15
16 granted 1 1.1.1 0.0.15 read
16 ok A 15 get = 0
17 granted 1 1.1.1 0.1.16 write
17 bound 16 1.16 1
17 active 1 16 1.16
17 lowered 1 1.1.1 0.1.16
17 granted 1 1.1.1 0.0.16 read
17 ok A 16 get = 0
18 refused 16
== fixed server
nodes 2
object 1 counter 0 servers 2 stores 1
run
begin A at 1
call A 1 add 5
deliver 1
deliver 1
deliver 2
commit A
settle
-- journal
1 began A top 1.1.1 -
2 sent 1 1 2 invoke
3 got 1
3 granted 2 1.1.1 0.0.1 write
3 sent 2 2 1 invoked
4 got 1
4 sent 3 2 1 invoked
5 got 2
5 ok A 1 add 5 = done
6 committing A
6 sent 4 1 2 vote
7 void 3
7 got 4
7 sent 5 2 1 voted
7 got 5
7 prepared 1 1.1.1 store
7 committed A
7 sent 6 1 2 told
7 done 1 1.1.1 store commit
7 got 6
7 told 2 1.1.1 commit server
7 sent 7 2 1 acked
7 got 7
== all frames again
nodes 3
object 1 counter 0 servers 1 stores 2,3
run
begin A at 1
call A 1 add 1
settle
commit A
lose 4
settle
giveup A
settle
show 1
deliver 8
deliver 7
deliver 6
deliver 5
deliver 4
deliver 3
deliver 2
deliver 1
quiesce
show 1
-- journal
1 began A top 1.1.1 -
2 granted 1 1.1.1 0.1.1 write
2 bound 1 1.1 1
2 sent 1 1 2 load
3 got 1
3 sent 2 2 1 loaded
3 got 2
3 active 1 1 1.1
3 lowered 1 1.1.1 0.1.1
3 granted 1 1.1.1 0.0.1 write
3 ok A 1 add 1 = done
4 committing A
4 sent 3 1 2 prepare
4 sent 4 1 3 prepare
5 dropped 4
6 got 3
6 prepared 2 1.1.1 store
6 sent 5 2 1 prepared
6 got 5
7 gaveup A 3
7 excluded A 1 3
7 granted 1 1.1.1 0.1.1 exclude
7 prepared 1 1.1.1 names
7 committed A
7 sent 6 1 2 told
7 sent 7 1 3 told
7 done 1 1.1.1 names commit
7 told 1 1.1.1 commit naming
7 told 1 1.1.1 commit server
8 got 6
8 done 2 1.1.1 store commit
8 sent 8 2 1 acked
8 got 7
8 got 8
9 entry 1 1 1 2
9 copy 2 1 1 1.1.1 0000000000000001
9 copy 3 1 0 0.0.0 0000000000000000
10 void 8
11 got 7
12 got 6
12 sent 9 2 1 acked
13 void 5
14 got 4
14 prepared 3 1.1.1 store
14 sent 10 3 1 prepared
15 void 3
16 void 2
17 got 1
17 sent 11 2 1 loaded
18 void 9
18 void 10
18 void 11
18 sent 12 3 1 query
18 got 12
18 sent 13 1 3 told
18 got 13
18 done 3 1.1.1 store abort
18 quiet yes
19 entry 1 1 1 2
19 copy 2 1 1 1.1.1 0000000000000001
19 copy 3 1 0 0.0.0 0000000000000000
== gone object
nodes 1
object 1 counter gone servers 1 stores 1
run
begin A at 1
call A 1 get
call A 1 create queue 1
call A 1 create counter 7
begin N in A
call N 1 destroy
abort N
call A 1 create counter 9
commit A
show 1
begin B at 1
call B 1 destroy
commit B
show 1
-- journal
1 began A top 1.1.1 -
2 granted 1 1.1.1 0.1.1 write
2 bound 1 1.1 1
2 active 1 1 1.1
2 lowered 1 1.1.1 0.1.1
2 granted 1 1.1.1 0.0.1 read
2 ok A 1 get = gone
3 refused 14
4 granted 1 1.1.1 0.0.1 write
4 ok A 1 create counter 7 = done
5 began N nested 1.1.2 A
6 granted 1 1.1.2 0.0.1 write
6 ok N 1 destroy = done
7 aborted N asked
7 told 1 1.1.2 abort server
8 ok A 1 create counter 9 = there
9 committing A
9 prepared 1 1.1.1 store
9 committed A
9 done 1 1.1.1 store commit
9 told 1 1.1.1 commit naming
9 told 1 1.1.1 commit server
10 entry 1 0 1 1
10 copy 1 1 1 1.1.1 0000000000000007
11 began B top 1.1.3 -
12 granted 1 1.1.3 0.1.1 read
12 granted 1 1.1.3 0.0.1 write
12 ok B 1 destroy = done
13 committing B
13 prepared 1 1.1.3 store
13 committed B
13 done 1 1.1.3 store commit
13 told 1 1.1.3 commit naming
13 told 1 1.1.3 commit server
14 entry 1 0 1 1
14 copy 1 1 2 1.1.3 01
== older format included
nodes 3
format 1
object 1 counter 0 servers 1 stores 2
run
begin I at 1
include I 1 3
settle
commit I
settle
show 1
-- journal
1 began I top 1.1.1 -
2 granted 1 1.1.1 0.1.1 write
2 sent 1 1 2 load
3 got 1
3 sent 2 2 1 loaded
3 got 2
3 includes I 1 3
4 committing I
4 sent 3 1 3 prepare
5 got 3
5 prepared 3 1.1.1 store
5 sent 4 3 1 prepared
5 got 4
5 prepared 1 1.1.1 names
5 committed I
5 sent 5 1 2 told
5 sent 6 1 3 told
5 done 1 1.1.1 names commit
5 told 1 1.1.1 commit naming
5 got 5
5 got 6
5 done 3 1.1.1 store commit
5 sent 7 3 1 acked
5 got 7
6 entry 1 1 1 2,3
6 copy 2 1 0 0.0.0 0000000000000000
6 copy 3 1 0 0.0.0 0000000000000000
";
