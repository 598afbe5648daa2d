// How long the script is, and its last transfer, by number.
use crate::generate;
use arj_class::Op;
use arj_journal::Event;
use std::test::Fail;

// The account and the amount of a call that moves money.
fn moved(event: Option<&Event>) -> Option<(u16, u64)> {
    match event {
        Some(Event::Call { x, op, .. }) => match op {
            Op::Withdraw(amount) | Op::Deposit(amount) => Some((*x, *amount)),
            _ => None,
        },
        _ => None,
    }
}

#[test]
fn each_number_has_its_last_transfer(rt: HostRuntime) -> Result<(), Fail> {
    let rows = [
        (0u32, 1u32, 6u16, 11u16, 4u64),
        (7, 2, 17, 20, 2),
        (4294967295, 5, 19, 10, 4),
    ];
    for (n, node, source, target, amount) in rows {
        let script = generate(rt.alloc(), n)?;
        assert_eq!(rt; script.header.nodes, 5);
        assert_eq!(rt; script.header.objects.as_slice().len(), 20);
        let events = script.events.as_slice();
        assert_eq!(rt; events.len(), 1627);
        assert_eq!(rt; moved(events.get(1618)), Some((source, amount)));
        assert!(rt; matches!(events.get(1620), Some(Event::Tick { node: at }) if *at == node));
        assert_eq!(rt; moved(events.get(1622)), Some((target, amount)));
        assert!(rt; matches!(events.get(1626), Some(Event::Quiesce)));
    }
    Ok(())
}
