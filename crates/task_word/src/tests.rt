ghost use Rattle.std.specs.Prelude.{◌≡◌};
ghost use Rattle.task_machine.specs.declared.task.Seen.TheVariants as views;

use crate::{
    after_drop, after_kill, after_retire, after_take, after_wake, encode, seen_of, takes_of,
};
use sched_base::Reasons;
use std::test::Fail;
use task_machine::{Seen, Stand};

/// What is seen of a live task.
fn live(stand: Stand, pending: Reasons, killed: bool, takes: u64) -> Seen
    ensures { result ≡ views.Live stand pending killed takes }
{
    Seen::Live {
        stand,
        pending,
        killed,
        takes,
    }
}

#[test]
fn a_task_goes_its_way_by_words(rt: HostRuntime) -> Result<(), Fail> {
    let woken = after_wake(0, Reasons::SIGNAL);
    let taken = after_take(0);
    let woken_again = after_wake(taken, Reasons::IO);
    let dropped = after_drop(woken_again);
    let killed = after_kill(taken);
    let both = after_wake(killed, Reasons::IO);
    let gone = after_wake(after_retire(), Reasons::IO);
    let words = [
        woken,
        taken,
        woken_again,
        dropped,
        killed,
        both,
        after_drop(both),
        gone,
    ];
    assert_eq!(rt;
        words,
        [2050, 65537, 66563, 66562, 65543, 66567, 66566, 1034]
    );
    Ok(())
}

#[test]
fn words_are_read_as_what_they_stand_for(rt: HostRuntime) -> Result<(), Fail> {
    assert!(rt; encode(Seen::Gone) == 8);
    assert!(rt; encode(live(Stand::Queued, Reasons::SIGNAL, false, 0)) == 2050);
    assert!(rt; encode(live(Stand::Runs, Reasons::IO, false, 1)) == 66563);
    assert!(rt; seen_of(66566) == live(Stand::Queued, Reasons::IO, true, 1));
    assert!(rt; seen_of(131072) == live(Stand::Rest, Reasons::EMPTY, false, 2));
    assert!(rt; seen_of(1034) == Seen::Gone);
    assert!(rt; takes_of(66566) == 1 && takes_of(131072) == 2);
    Ok(())
}
