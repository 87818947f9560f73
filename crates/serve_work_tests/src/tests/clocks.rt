//! Where the clock goes on between the epochs of a session.
ghost use Rattle.std.specs.Prelude.{⊤};

use super::late::twenty;
use super::live::{Due, Note, is_whole, long, serves_by, side, wants, when};
use serve_work::Clock;
use std::collections::VecDeque;
use std::marker::Brand;
use std::sync::atomic::{AtomicU64, Ordering};
use std::test::Fail;
use test_tools::streams::{ONE, ONE_INVERTED, THREE, THREE_INVERTED};

/// Where so many bytes were written it is this moment, and 0 before.
#[derive(Drop)]
struct Jumps<'a> {
    written: &'a AtomicU64,
    least: u64,
    to: u64,
}

impl Clock for Jumps<'_> {
    ghost gives = { λ _ _. ⊤ };

    fn moment(&self) -> u64 {
        if self.written.load(Ordering::SeqCst) >= self.least {
            self.to
        } else {
            0
        }
    }
}

/// The first stream is silent when the second is over, whose three units are paid for by moment 6. The clock
/// comes to 100 then, though no frame comes, and so the third has its share.
#[test]
fn a_share_is_free_beside_a_silent_stream(rt: HostRuntime) -> Result<(), Fail> {
    let alloc = rt.alloc();
    let (frames, images) = twenty(alloc)?;
    let first = AtomicU64::new(0);
    let second = AtomicU64::new(0);
    let third = AtomicU64::new(0);
    let slow = long(&frames, &first, &third, 32);
    let mut requests = VecDeque::new(alloc);
    requests.push_back(wants(&rt, alloc, when(&first, 0), 7, slow))?;
    requests.push_back(wants(&rt, alloc, when(&first, 72), 8, side(THREE, &second)))?;
    let behind = Due {
        written: &second,
        least: 52,
        told: 1,
    };
    requests.push_back(wants(&rt, alloc, behind, 9, side(ONE, &third)))?;
    let clock = Jumps {
        written: &second,
        least: 52,
        to: 100,
    };
    let (mut told, mut notes) = serves_by::<_, _, Brand>(
        &rt,
        alloc,
        1,
        &clock,
        requests,
        VecDeque::new(alloc),
    )?;
    is_whole(&rt, told.pop_front(), 8, 3, THREE_INVERTED);
    is_whole(&rt, told.pop_front(), 9, 1, ONE_INVERTED);
    is_whole(&rt, told.pop_front(), 7, 20, &images);
    assert!(&rt; told.pop_front().is_none());
    let wanted = [
        Note::Admitted(7),
        Note::Ended(Some(7), None),
        Note::GoesOn(0),
        Note::Admitted(8),
        Note::Ended(Some(7), Some(8)),
        Note::GoesOn(100),
        Note::Retired,
        Note::Admitted(9),
        Note::Ended(Some(7), Some(9)),
        Note::GoesOn(100),
        Note::Ended(Some(7), None),
        Note::GoesOn(100),
    ];
    for note in &wanted {
        assert_eq!(&rt; notes.pop_front(), Some(*note));
    }
    assert!(&rt; notes.pop_front().is_none());
    Ok(())
}
