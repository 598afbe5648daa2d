// Each of the first four reads and writes of a run failing.
use crate::runs::{Feeding, bytes, replayed};
use std::alloc::{AllocError, Global};
use std::test::Fail;

const SCRIPT: &[u8] = b"nodes 1
object 1 counter 0 servers 1 stores 1
run
begin A at 1
call A 1 add 1
commit A
begin B at 1
call B 1 get
commit B
";

// What its first three events write.
const FIRST: &[u8] = b"1 began A top 1.1.1 -\n";

const SECOND: &[u8] = b"2 granted 1 1.1.1 0.1.1 write
2 bound 1 1.1 1
2 active 1 1 1.1
2 lowered 1 1.1.1 0.1.1
2 granted 1 1.1.1 0.0.1 write
2 ok A 1 add 1 = done
";

const THIRD: &[u8] = b"3 committing A
3 prepared 1 1.1.1 store
3 committed A
3 done 1 1.1.1 store commit
3 told 1 1.1.1 commit naming
3 told 1 1.1.1 commit server
";

// And what the others do.
const REST: &[u8] = b"4 began B top 1.1.2 -
5 granted 1 1.1.2 0.1.1 read
5 granted 1 1.1.2 0.0.1 read
5 ok B 1 get = 1
6 committing B
6 committed B
6 told 1 1.1.2 commit naming
6 told 1 1.1.2 commit server
";

// Whether a run that is fed so ends with this status, and these texts were written.
fn ends_so(
    alloc: Global,
    feeding: Feeding,
    status: u8,
    written: &[&[u8]],
) -> Result<bool, AllocError> {
    let came = replayed(alloc, [SCRIPT].as_slice(), feeding)?;
    let written = bytes(alloc, written)?;
    Ok(came.status == status && came.sink.taken() == Some(written.as_slice()))
}

// A read that fails comes before what it would have given is run, and a write that fails before more is read. In pieces of one byte
// each event's lines are a write; in one piece the first read gives all, and all is written at once.
#[test]
fn first_reads_and_writes(rt: HostRuntime) -> Result<(), Fail> {
    let alloc = rt.alloc();
    for (chunk, failing_read, failing_write, status, written) in [
        (1, Some(1), None, 3, [].as_slice()),
        (1, Some(2), None, 3, [].as_slice()),
        (1, Some(3), None, 3, [].as_slice()),
        (1, Some(4), None, 3, [].as_slice()),
        (1, None, Some(1), 4, [].as_slice()),
        (1, None, Some(2), 4, [FIRST].as_slice()),
        (1, None, Some(3), 4, [FIRST, SECOND].as_slice()),
        (1, None, Some(4), 4, [FIRST, SECOND, THIRD].as_slice()),
        (512, Some(1), None, 3, [].as_slice()),
        (
            512,
            Some(2),
            None,
            3,
            [FIRST, SECOND, THIRD, REST].as_slice(),
        ),
        (
            512,
            Some(3),
            None,
            0,
            [FIRST, SECOND, THIRD, REST].as_slice(),
        ),
        (
            512,
            Some(4),
            None,
            0,
            [FIRST, SECOND, THIRD, REST].as_slice(),
        ),
        (512, None, Some(1), 4, [].as_slice()),
        (
            512,
            None,
            Some(2),
            0,
            [FIRST, SECOND, THIRD, REST].as_slice(),
        ),
        (
            512,
            None,
            Some(3),
            0,
            [FIRST, SECOND, THIRD, REST].as_slice(),
        ),
        (
            512,
            None,
            Some(4),
            0,
            [FIRST, SECOND, THIRD, REST].as_slice(),
        ),
    ] {
        let feeding = Feeding {
            chunk,
            failing_read,
            failing_write,
        };
        assert!(rt; ends_so(alloc, feeding, status, written)?);
    }
    Ok(())
}
