//! What a worker has in its forest after a turn.

use crate::injector::Injector;
use crate::merger::Merger;
use crate::plant::Plant;
use crate::worker::Worker;
use sched_base::OpenGate;
use std::alloc::{AllocError, Global};
use std::test::Fail;
use std::thread::Threads;
use step_tables::Script;

/// A task that sets a timer past the end of the ticks, and is killed by its next run.
const TIMER: &str =
    "taskscript 1\nworkers 1\ndepth 200\nstart 4294967290\nstep 4\nrounds 10\ntask a home 0 nice 0 rows 2 init\nrow a 0 after 10 next 1\nrow a 1 kill a next 1\nend\n";

/// In which roots the first task's timer and run are, and the timer's key.
#[derive(Clone, Copy, Debug, PartialEq, Eq)]
struct Queued {
    timer: Option<u32>,
    key: Option<u32>,
    run: Option<u32>,
}

fn first_of(worker: &Worker) -> Queued {
    let forest = worker.forest();
    let timer = forest.is_in(0);
    Queued {
        timer,
        key: match timer {
            Some(_) => Some(forest.key_of(0)),
            None => None,
        },
        run: forest.is_in(1),
    }
}

/// What the first worker has after the first round.
fn after_first_round<R: Threads + Sync>(
    rt: &R,
    alloc: Global,
    script: &Script,
) -> Result<Option<Queued>, AllocError> {
    let rounds = script.rounds();
    let mut plant = Plant::new(alloc, script)?;
    if rounds == 0 {
        return Ok(None);
    }
    let mut hand = plant.begin_round(alloc, script, 0)?;
    plant.run_round(rt, script, &mut hand, 0, &OpenGate);
    plant.end_round(script, hand);
    Ok(plant.workers.first().map(first_of))
}

#[test]
fn timer_of_a_first_turn_stands_in_the_forest(rt: HostRuntime) -> Result<(), Fail> {
    let alloc = rt.alloc();
    if let Ok(script) = Script::read(alloc, TIMER.as_bytes()) {
        let wanted = Queued {
            timer: Some(0),
            key: Some(4),
            run: None,
        };
        assert_eq!(rt; after_first_round(&rt, alloc, &script)?, Some(wanted));
    } else {
        assert!(rt; false);
    }
    Ok(())
}

/// Compiles where the type may go from thread to thread.
fn handed<T: Send>() {}

#[test]
fn workers_and_injectors_are_handed_on() {
    handed::<Worker>();
    handed::<Injector>();
    handed::<Merger>();
}

#[test]
fn logs_have_room_before_a_round(rt: HostRuntime) -> Result<(), Fail> {
    let alloc = rt.alloc();
    if let Ok(script) = Script::read(alloc, TIMER.as_bytes()) {
        let mut injector = Injector::new(alloc, &script)?;
        injector.reserve_round(&script, 0)?;
        assert!(rt; injector.log().as_slice().is_empty());
        if script.workers() > 0 {
            let mut worker = Worker::new(alloc, 0, &script)?;
            worker.reserve_turn(&script)?;
            assert!(rt; worker.log().as_slice().is_empty());
        }
    } else {
        assert!(rt; false);
    }
    Ok(())
}
