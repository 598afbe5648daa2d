// Runs in which a store stops at a call of its disk: the call undone, done or torn.

pub const STORES: &str = "\
== store stops at read undone
nodes 3
object 1 counter 0 servers 1 stores 2,3
run
begin A at 1
call A 1 add 1
settle
stop 2 1 none
commit A
settle
restart 2
quiesce
show 1
-- journal
1 began A top 1.1.1 -
2 granted 1 1.1.1 0.1.1 write
2 bound 1 1.1 1
2 sent 1 1 2 load
3 got 1
3 sent 2 2 1 loaded
3 got 2
3 active 1 1 1.1
3 lowered 1 1.1.1 0.1.1
3 granted 1 1.1.1 0.0.1 write
3 ok A 1 add 1 = done
4 armed 2
5 committing A
5 sent 3 1 2 prepare
5 sent 4 1 3 prepare
6 got 3
6 halted 2
6 got 4
6 prepared 3 1.1.1 store
6 sent 5 3 1 prepared
6 got 5
7 up 2 2
7 sent 6 2 1 hello
7 sent 7 2 3 hello
8 got 6
8 got 7
8 sent 8 1 2 prepare
8 sent 9 3 1 query
8 got 8
8 prepared 2 1.1.1 store
8 sent 10 2 1 prepared
8 got 9
8 got 10
8 committed A
8 sent 11 1 2 told
8 sent 12 1 3 told
8 told 1 1.1.1 commit naming
8 told 1 1.1.1 commit server
8 got 11
8 done 2 1.1.1 store commit
8 sent 13 2 1 acked
8 got 12
8 done 3 1.1.1 store commit
8 sent 14 3 1 acked
8 got 13
8 got 14
8 quiet yes
9 entry 1 0 1 2,3
9 copy 2 1 1 1.1.1 0000000000000001
9 copy 3 1 1 1.1.1 0000000000000001
== store stops at read done
nodes 3
object 1 counter 0 servers 1 stores 2,3
run
begin A at 1
call A 1 add 1
settle
stop 2 1 done
commit A
settle
restart 2
quiesce
show 1
-- journal
1 began A top 1.1.1 -
2 granted 1 1.1.1 0.1.1 write
2 bound 1 1.1 1
2 sent 1 1 2 load
3 got 1
3 sent 2 2 1 loaded
3 got 2
3 active 1 1 1.1
3 lowered 1 1.1.1 0.1.1
3 granted 1 1.1.1 0.0.1 write
3 ok A 1 add 1 = done
4 armed 2
5 committing A
5 sent 3 1 2 prepare
5 sent 4 1 3 prepare
6 got 3
6 halted 2
6 got 4
6 prepared 3 1.1.1 store
6 sent 5 3 1 prepared
6 got 5
7 up 2 2
7 sent 6 2 1 hello
7 sent 7 2 3 hello
8 got 6
8 got 7
8 sent 8 1 2 prepare
8 sent 9 3 1 query
8 got 8
8 prepared 2 1.1.1 store
8 sent 10 2 1 prepared
8 got 9
8 got 10
8 committed A
8 sent 11 1 2 told
8 sent 12 1 3 told
8 told 1 1.1.1 commit naming
8 told 1 1.1.1 commit server
8 got 11
8 done 2 1.1.1 store commit
8 sent 13 2 1 acked
8 got 12
8 done 3 1.1.1 store commit
8 sent 14 3 1 acked
8 got 13
8 got 14
8 quiet yes
9 entry 1 0 1 2,3
9 copy 2 1 1 1.1.1 0000000000000001
9 copy 3 1 1 1.1.1 0000000000000001
== store stops at read torn
nodes 3
object 1 counter 0 servers 1 stores 2,3
run
begin A at 1
call A 1 add 1
settle
stop 2 1 torn 41524a
commit A
settle
restart 2
quiesce
show 1
-- journal
1 began A top 1.1.1 -
2 granted 1 1.1.1 0.1.1 write
2 bound 1 1.1 1
2 sent 1 1 2 load
3 got 1
3 sent 2 2 1 loaded
3 got 2
3 active 1 1 1.1
3 lowered 1 1.1.1 0.1.1
3 granted 1 1.1.1 0.0.1 write
3 ok A 1 add 1 = done
4 armed 2
5 committing A
5 sent 3 1 2 prepare
5 sent 4 1 3 prepare
6 got 3
6 halted 2
6 got 4
6 prepared 3 1.1.1 store
6 sent 5 3 1 prepared
6 got 5
7 up 2 2
7 sent 6 2 1 hello
7 sent 7 2 3 hello
8 got 6
8 got 7
8 sent 8 1 2 prepare
8 sent 9 3 1 query
8 got 8
8 prepared 2 1.1.1 store
8 sent 10 2 1 prepared
8 got 9
8 got 10
8 committed A
8 sent 11 1 2 told
8 sent 12 1 3 told
8 told 1 1.1.1 commit naming
8 told 1 1.1.1 commit server
8 got 11
8 done 2 1.1.1 store commit
8 sent 13 2 1 acked
8 got 12
8 done 3 1.1.1 store commit
8 sent 14 3 1 acked
8 got 13
8 got 14
8 quiet yes
9 entry 1 0 1 2,3
9 copy 2 1 1 1.1.1 0000000000000001
9 copy 3 1 1 1.1.1 0000000000000001
== store stops at write undone
nodes 3
object 1 counter 0 servers 1 stores 2,3
run
begin A at 1
call A 1 add 1
settle
stop 2 2 none
commit A
settle
restart 2
quiesce
show 1
-- journal
1 began A top 1.1.1 -
2 granted 1 1.1.1 0.1.1 write
2 bound 1 1.1 1
2 sent 1 1 2 load
3 got 1
3 sent 2 2 1 loaded
3 got 2
3 active 1 1 1.1
3 lowered 1 1.1.1 0.1.1
3 granted 1 1.1.1 0.0.1 write
3 ok A 1 add 1 = done
4 armed 2
5 committing A
5 sent 3 1 2 prepare
5 sent 4 1 3 prepare
6 got 3
6 halted 2
6 got 4
6 prepared 3 1.1.1 store
6 sent 5 3 1 prepared
6 got 5
7 up 2 2
7 sent 6 2 1 hello
7 sent 7 2 3 hello
8 got 6
8 got 7
8 sent 8 1 2 prepare
8 sent 9 3 1 query
8 got 8
8 prepared 2 1.1.1 store
8 sent 10 2 1 prepared
8 got 9
8 got 10
8 committed A
8 sent 11 1 2 told
8 sent 12 1 3 told
8 told 1 1.1.1 commit naming
8 told 1 1.1.1 commit server
8 got 11
8 done 2 1.1.1 store commit
8 sent 13 2 1 acked
8 got 12
8 done 3 1.1.1 store commit
8 sent 14 3 1 acked
8 got 13
8 got 14
8 quiet yes
9 entry 1 0 1 2,3
9 copy 2 1 1 1.1.1 0000000000000001
9 copy 3 1 1 1.1.1 0000000000000001
== store stops at write done
nodes 3
object 1 counter 0 servers 1 stores 2,3
run
begin A at 1
call A 1 add 1
settle
stop 2 2 done
commit A
settle
restart 2
quiesce
show 1
-- journal
1 began A top 1.1.1 -
2 granted 1 1.1.1 0.1.1 write
2 bound 1 1.1 1
2 sent 1 1 2 load
3 got 1
3 sent 2 2 1 loaded
3 got 2
3 active 1 1 1.1
3 lowered 1 1.1.1 0.1.1
3 granted 1 1.1.1 0.0.1 write
3 ok A 1 add 1 = done
4 armed 2
5 committing A
5 sent 3 1 2 prepare
5 sent 4 1 3 prepare
6 got 3
6 halted 2
6 got 4
6 prepared 3 1.1.1 store
6 sent 5 3 1 prepared
6 got 5
7 up 2 2
7 sent 6 2 1 hello
7 sent 7 2 3 hello
8 got 6
8 got 7
8 sent 8 1 2 prepare
8 sent 9 3 1 query
8 got 8
8 prepared 2 1.1.1 store
8 sent 10 2 1 prepared
8 got 9
8 got 10
8 committed A
8 sent 11 1 2 told
8 sent 12 1 3 told
8 told 1 1.1.1 commit naming
8 told 1 1.1.1 commit server
8 got 11
8 done 2 1.1.1 store commit
8 sent 13 2 1 acked
8 got 12
8 done 3 1.1.1 store commit
8 sent 14 3 1 acked
8 got 13
8 got 14
8 quiet yes
9 entry 1 0 1 2,3
9 copy 2 1 1 1.1.1 0000000000000001
9 copy 3 1 1 1.1.1 0000000000000001
== store stops at write torn
nodes 3
object 1 counter 0 servers 1 stores 2,3
run
begin A at 1
call A 1 add 1
settle
stop 2 2 torn 41524a
commit A
settle
restart 2
quiesce
show 1
-- journal
1 began A top 1.1.1 -
2 granted 1 1.1.1 0.1.1 write
2 bound 1 1.1 1
2 sent 1 1 2 load
3 got 1
3 sent 2 2 1 loaded
3 got 2
3 active 1 1 1.1
3 lowered 1 1.1.1 0.1.1
3 granted 1 1.1.1 0.0.1 write
3 ok A 1 add 1 = done
4 armed 2
5 committing A
5 sent 3 1 2 prepare
5 sent 4 1 3 prepare
6 got 3
6 halted 2
6 got 4
6 prepared 3 1.1.1 store
6 sent 5 3 1 prepared
6 got 5
7 up 2 2
7 sent 6 2 1 hello
7 sent 7 2 3 hello
8 got 6
8 got 7
8 sent 8 1 2 prepare
8 sent 9 3 1 query
8 got 8
8 prepared 2 1.1.1 store
8 sent 10 2 1 prepared
8 got 9
8 got 10
8 committed A
8 sent 11 1 2 told
8 sent 12 1 3 told
8 told 1 1.1.1 commit naming
8 told 1 1.1.1 commit server
8 got 11
8 done 2 1.1.1 store commit
8 sent 13 2 1 acked
8 got 12
8 done 3 1.1.1 store commit
8 sent 14 3 1 acked
8 got 13
8 got 14
8 quiet yes
9 entry 1 0 1 2,3
9 copy 2 1 1 1.1.1 0000000000000001
9 copy 3 1 1 1.1.1 0000000000000001
== store stops at rename undone
nodes 3
object 1 counter 0 servers 1 stores 2,3
run
begin A at 1
call A 1 add 1
settle
stop 2 3 none
commit A
settle
restart 2
quiesce
show 1
-- journal
1 began A top 1.1.1 -
2 granted 1 1.1.1 0.1.1 write
2 bound 1 1.1 1
2 sent 1 1 2 load
3 got 1
3 sent 2 2 1 loaded
3 got 2
3 active 1 1 1.1
3 lowered 1 1.1.1 0.1.1
3 granted 1 1.1.1 0.0.1 write
3 ok A 1 add 1 = done
4 armed 2
5 committing A
5 sent 3 1 2 prepare
5 sent 4 1 3 prepare
6 got 3
6 halted 2
6 got 4
6 prepared 3 1.1.1 store
6 sent 5 3 1 prepared
6 got 5
7 up 2 2
7 sent 6 2 1 hello
7 sent 7 2 3 hello
8 got 6
8 got 7
8 sent 8 1 2 prepare
8 sent 9 3 1 query
8 got 8
8 prepared 2 1.1.1 store
8 sent 10 2 1 prepared
8 got 9
8 got 10
8 committed A
8 sent 11 1 2 told
8 sent 12 1 3 told
8 told 1 1.1.1 commit naming
8 told 1 1.1.1 commit server
8 got 11
8 done 2 1.1.1 store commit
8 sent 13 2 1 acked
8 got 12
8 done 3 1.1.1 store commit
8 sent 14 3 1 acked
8 got 13
8 got 14
8 quiet yes
9 entry 1 0 1 2,3
9 copy 2 1 1 1.1.1 0000000000000001
9 copy 3 1 1 1.1.1 0000000000000001
== store stops at rename done
nodes 3
object 1 counter 0 servers 1 stores 2,3
run
begin A at 1
call A 1 add 1
settle
stop 2 3 done
commit A
settle
restart 2
quiesce
show 1
-- journal
1 began A top 1.1.1 -
2 granted 1 1.1.1 0.1.1 write
2 bound 1 1.1 1
2 sent 1 1 2 load
3 got 1
3 sent 2 2 1 loaded
3 got 2
3 active 1 1 1.1
3 lowered 1 1.1.1 0.1.1
3 granted 1 1.1.1 0.0.1 write
3 ok A 1 add 1 = done
4 armed 2
5 committing A
5 sent 3 1 2 prepare
5 sent 4 1 3 prepare
6 got 3
6 halted 2
6 got 4
6 prepared 3 1.1.1 store
6 sent 5 3 1 prepared
6 got 5
7 up 2 2
7 sent 6 2 1 query
7 sent 7 2 1 hello
7 sent 8 2 3 hello
8 got 6
8 got 7
8 got 8
8 sent 9 1 2 prepare
8 sent 10 2 1 query
8 sent 11 3 1 query
8 got 9
8 sent 12 2 1 prepared
8 got 10
8 got 11
8 got 12
8 committed A
8 sent 13 1 2 told
8 sent 14 1 3 told
8 told 1 1.1.1 commit naming
8 told 1 1.1.1 commit server
8 got 13
8 done 2 1.1.1 store commit
8 sent 15 2 1 acked
8 got 14
8 done 3 1.1.1 store commit
8 sent 16 3 1 acked
8 got 15
8 got 16
8 quiet yes
9 entry 1 0 1 2,3
9 copy 2 1 1 1.1.1 0000000000000001
9 copy 3 1 1 1.1.1 0000000000000001
== store stops at rename torn
nodes 3
object 1 counter 0 servers 1 stores 2,3
run
begin A at 1
call A 1 add 1
settle
stop 2 3 torn 41524a
commit A
settle
restart 2
quiesce
show 1
-- journal
1 began A top 1.1.1 -
2 granted 1 1.1.1 0.1.1 write
2 bound 1 1.1 1
2 sent 1 1 2 load
3 got 1
3 sent 2 2 1 loaded
3 got 2
3 active 1 1 1.1
3 lowered 1 1.1.1 0.1.1
3 granted 1 1.1.1 0.0.1 write
3 ok A 1 add 1 = done
4 armed 2
5 committing A
5 sent 3 1 2 prepare
5 sent 4 1 3 prepare
6 got 3
6 halted 2
6 got 4
6 prepared 3 1.1.1 store
6 sent 5 3 1 prepared
6 got 5
7 up 2 2
7 sent 6 2 1 hello
7 sent 7 2 3 hello
8 got 6
8 got 7
8 sent 8 1 2 prepare
8 sent 9 3 1 query
8 got 8
8 prepared 2 1.1.1 store
8 sent 10 2 1 prepared
8 got 9
8 got 10
8 committed A
8 sent 11 1 2 told
8 sent 12 1 3 told
8 told 1 1.1.1 commit naming
8 told 1 1.1.1 commit server
8 got 11
8 done 2 1.1.1 store commit
8 sent 13 2 1 acked
8 got 12
8 done 3 1.1.1 store commit
8 sent 14 3 1 acked
8 got 13
8 got 14
8 quiet yes
9 entry 1 0 1 2,3
9 copy 2 1 1 1.1.1 0000000000000001
9 copy 3 1 1 1.1.1 0000000000000001
== store stops at commit rename undone
nodes 3
object 1 counter 0 servers 1 stores 2,3
run
begin A at 1
call A 1 add 1
settle
stop 2 4 none
commit A
settle
restart 2
quiesce
show 1
-- journal
1 began A top 1.1.1 -
2 granted 1 1.1.1 0.1.1 write
2 bound 1 1.1 1
2 sent 1 1 2 load
3 got 1
3 sent 2 2 1 loaded
3 got 2
3 active 1 1 1.1
3 lowered 1 1.1.1 0.1.1
3 granted 1 1.1.1 0.0.1 write
3 ok A 1 add 1 = done
4 armed 2
5 committing A
5 sent 3 1 2 prepare
5 sent 4 1 3 prepare
6 got 3
6 prepared 2 1.1.1 store
6 sent 5 2 1 prepared
6 got 4
6 prepared 3 1.1.1 store
6 sent 6 3 1 prepared
6 got 5
6 got 6
6 committed A
6 sent 7 1 2 told
6 sent 8 1 3 told
6 told 1 1.1.1 commit naming
6 told 1 1.1.1 commit server
6 got 7
6 halted 2
6 got 8
6 done 3 1.1.1 store commit
6 sent 9 3 1 acked
6 got 9
7 up 2 2
7 sent 10 2 1 query
7 sent 11 2 1 hello
7 sent 12 2 3 hello
8 got 10
8 sent 13 1 2 told
8 got 11
8 got 12
8 got 13
8 done 2 1.1.1 store commit
8 sent 14 2 1 acked
8 got 14
8 quiet yes
9 entry 1 0 1 2,3
9 copy 2 1 1 1.1.1 0000000000000001
9 copy 3 1 1 1.1.1 0000000000000001
== store stops at commit rename done
nodes 3
object 1 counter 0 servers 1 stores 2,3
run
begin A at 1
call A 1 add 1
settle
stop 2 4 done
commit A
settle
restart 2
quiesce
show 1
-- journal
1 began A top 1.1.1 -
2 granted 1 1.1.1 0.1.1 write
2 bound 1 1.1 1
2 sent 1 1 2 load
3 got 1
3 sent 2 2 1 loaded
3 got 2
3 active 1 1 1.1
3 lowered 1 1.1.1 0.1.1
3 granted 1 1.1.1 0.0.1 write
3 ok A 1 add 1 = done
4 armed 2
5 committing A
5 sent 3 1 2 prepare
5 sent 4 1 3 prepare
6 got 3
6 prepared 2 1.1.1 store
6 sent 5 2 1 prepared
6 got 4
6 prepared 3 1.1.1 store
6 sent 6 3 1 prepared
6 got 5
6 got 6
6 committed A
6 sent 7 1 2 told
6 sent 8 1 3 told
6 told 1 1.1.1 commit naming
6 told 1 1.1.1 commit server
6 got 7
6 halted 2
6 got 8
6 done 3 1.1.1 store commit
6 sent 9 3 1 acked
6 got 9
7 up 2 2
7 sent 10 2 1 hello
7 sent 11 2 3 hello
8 got 10
8 got 11
8 sent 12 1 2 told
8 got 12
8 sent 13 2 1 acked
8 got 13
8 quiet yes
9 entry 1 0 1 2,3
9 copy 2 1 1 1.1.1 0000000000000001
9 copy 3 1 1 1.1.1 0000000000000001
== store stops at commit rename torn
nodes 3
object 1 counter 0 servers 1 stores 2,3
run
begin A at 1
call A 1 add 1
settle
stop 2 4 torn 41524a
commit A
settle
restart 2
quiesce
show 1
-- journal
1 began A top 1.1.1 -
2 granted 1 1.1.1 0.1.1 write
2 bound 1 1.1 1
2 sent 1 1 2 load
3 got 1
3 sent 2 2 1 loaded
3 got 2
3 active 1 1 1.1
3 lowered 1 1.1.1 0.1.1
3 granted 1 1.1.1 0.0.1 write
3 ok A 1 add 1 = done
4 armed 2
5 committing A
5 sent 3 1 2 prepare
5 sent 4 1 3 prepare
6 got 3
6 prepared 2 1.1.1 store
6 sent 5 2 1 prepared
6 got 4
6 prepared 3 1.1.1 store
6 sent 6 3 1 prepared
6 got 5
6 got 6
6 committed A
6 sent 7 1 2 told
6 sent 8 1 3 told
6 told 1 1.1.1 commit naming
6 told 1 1.1.1 commit server
6 got 7
6 halted 2
6 got 8
6 done 3 1.1.1 store commit
6 sent 9 3 1 acked
6 got 9
7 up 2 2
7 sent 10 2 1 query
7 sent 11 2 1 hello
7 sent 12 2 3 hello
8 got 10
8 sent 13 1 2 told
8 got 11
8 got 12
8 got 13
8 done 2 1.1.1 store commit
8 sent 14 2 1 acked
8 got 14
8 quiet yes
9 entry 1 0 1 2,3
9 copy 2 1 1 1.1.1 0000000000000001
9 copy 3 1 1 1.1.1 0000000000000001
";
