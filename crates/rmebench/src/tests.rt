//! Each kind of work once, and the words that ask for it.

use crate::order::Order;
use crate::work::do_work;
use std::alloc::{AllocError, Global};
use std::test::Fail;

#[test]
fn members_enter_as_often_as_they_are_asked(rt: HostRuntime) -> Result<(), Fail> {
    let order = Order::Lock {
        procs: 3,
        threads: 2,
        rounds: 10,
    };
    assert_eq!(rt; do_work(&rt, rt.alloc(), order), Ok(20));
    Ok(())
}

#[test]
fn a_member_appends_as_often_as_it_is_asked(rt: HostRuntime) -> Result<(), Fail> {
    let order = Order::Append {
        procs: 2,
        width: 3,
        rounds: 10,
    };
    assert_eq!(rt; do_work(&rt, rt.alloc(), order), Ok(10));
    Ok(())
}

/// The work that the words of this line ask for.
fn asked(alloc: Global, line: &str) -> Result<Option<Order>, AllocError> {
    let mut words = Vec::new(alloc);
    for word in line.split(' ') {
        words.push(String::from_str(alloc, word)?)?;
    }
    Ok(Order::of_words(&words))
}

#[test]
fn words_for_a_lock(rt: HostRuntime) -> Result<(), Fail> {
    let order = Order::Lock {
        procs: 64,
        threads: 3,
        rounds: 10,
    };
    assert_eq!(rt; asked(rt.alloc(), "rmebench lock 64 3 10")?, Some(order));
    assert_eq!(rt; order.counted_name(), "entries");
    Ok(())
}

#[test]
fn words_for_appends(rt: HostRuntime) -> Result<(), Fail> {
    let order = Order::Append {
        procs: 3,
        width: 8,
        rounds: 65_536,
    };
    assert_eq!(rt;
        asked(rt.alloc(), "rmebench append 3 8 65536")?,
        Some(order)
    );
    assert_eq!(rt; order.counted_name(), "messages");
    Ok(())
}

#[test]
fn words_for_nothing(rt: HostRuntime) -> Result<(), Fail> {
    let lines = [
        "rmebench",
        "rmebench lock 3 2",
        "rmebench lock 3 2 10 7",
        "rmebench wait 1 1 1",
        "rmebench lock x 1 1",
        "rmebench lock 0 1 1",
        "rmebench lock 65 1 1",
        "rmebench lock 3 4 1",
        "rmebench lock 3 0 1",
        "rmebench append 3 0 1",
        "rmebench append 3 9 1",
        "rmebench append 3 1 65537",
    ];
    for line in lines {
        assert_eq!(rt; asked(rt.alloc(), line)?, None, "{line}");
    }
    Ok(())
}
