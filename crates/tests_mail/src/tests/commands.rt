//! The recipients of a transaction. What is expected is what RFC 2033 and RFC 5321 say of them. Which lines are which commands is shown by the rows of
//! `envelope`, since what its reader answers is the definition's own word.

use envelope::{Recipients, TooMany};
use std::alloc::AllocError;

// Whether two are added by turns until a hundred stand there.
fn fills(recipients: &mut Recipients) -> bool {
    let mut added = true;
    for _turn in 0..50 {
        added = added && recipients.add(7) == Ok(()) && recipients.add(3) == Ok(());
    }
    added
}

#[test]
fn recipients_stand_in_their_order(rt: HostRuntime) -> Result<(), AllocError> {
    let mut recipients = Recipients::new(rt.alloc())?;
    let empty = recipients.list().is_empty();
    let filled = fills(&mut recipients);
    assert_eq!(rt; (empty, filled), (true, true));
    assert_eq!(rt; recipients.add(7), Err(TooMany));
    assert_eq!(rt; recipients.list().len(), 100);
    assert_eq!(rt; &recipients.list()[..3], [7, 3, 7].as_slice());
    recipients.clear();
    assert!(rt; recipients.list().is_empty());
    Ok(())
}
