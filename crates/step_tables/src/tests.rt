use super::*;
use std::alloc::{AllocError, Global};
use std::test::Fail;

/// What a text is.
#[derive(Clone, Copy)]
enum Verdict {
    /// A script with so many tasks and so many events, which is written as this text.
    Reads(usize, usize),
    /// No script, by the line of this number and for a fault of this kind.
    Fault(u32, u8),
}

use Verdict::{Fault, Reads};

/// The first line.
const HEADER: &str = "taskscript 1\n";

/// Six lines: the header and the settings.
const SETTINGS: &str = "taskscript 1\nworkers 1\ndepth 200\nstart 4294967290\nstep 4\nrounds 10\n";

/// Seven lines, with a task of two rows.
const TASK: &str = "taskscript 1\nworkers 1\ndepth 200\nstart 4294967290\nstep 4\nrounds 10\n\
                    task a home 0 nice 0 rows 2 init\n";

/// Eight lines, with its first row.
const ROW: &str = "taskscript 1\nworkers 1\ndepth 200\nstart 4294967290\nstep 4\nrounds 10\n\
                   task a home 0 nice 0 rows 2 init\nrow a 0 after 10 next 1\n";

/// Nine lines, with both rows.
const ROWS: &str = "taskscript 1\nworkers 1\ndepth 200\nstart 4294967290\nstep 4\nrounds 10\n\
                    task a home 0 nice 0 rows 2 init\nrow a 0 after 10 next 1\n\
                    row a 1 kill a next 1\n";

/// Nine lines, with which a script of 65,533 events has all the bytes that it may have.
const LONG_FRONT: &str = "taskscript 1\nworkers 16\ndepth 1000\nstart 4294967290\nstep 1048576\n\
                          rounds 100000\ntask aaaaaaaaaaaaaaa home 0 nice -1024 rows 2 init\n\
                          row aaaaaaaaaaaaaaa 0 next 0\nrow aaaaaaaaaaaaaaa 1 next 0\n";

/// An event of 64 bytes.
const EVENT: &str = "event 0 wake aaaaaaaaaaaaaaa init,timer,io,signal,msg,res,other\n";

/// Begins and ends of texts, with what each whole text is.
const TEXTS: [(&str, &str, Verdict); 50] = [
    // Scripts.
    (ROWS, "end\n", Reads(1, 0)),
    (
        ROWS,
        "event 0 kill a\nevent 9 wake a init,timer,io,signal,msg,res,other\nevent 9 kill a\nend\n",
        Reads(1, 3),
    ),
    (SETTINGS, "end\n", Reads(0, 0)),
    (
        HEADER,
        "workers 1\ndepth 200\nstart 0\nstep 1\nrounds 5\nend\n",
        Reads(0, 0),
    ),
    (
        SETTINGS,
        "task wake home 0 nice 1024 rows 1\nrow wake 0 wake wake other kill wake never next 0\n\
         end\n",
        Reads(1, 0),
    ),
    (
        SETTINGS,
        "tasklet next home 0 class bulk rows 1\ntask end shared nice -1 rows 1 init\n\
         row next 0 kill next wake end res next 0\nrow end 0 next 0\nevent 1 kill end\nend\n",
        Reads(2, 1),
    ),
    (
        "taskscript 1\nworkers 1\ndepth 200\nstart 0\nstep 1\nrounds 5\n",
        "task a home 0 nice 0 rows 1 init\nrow a 0 kill a next 0\nend\n",
        Reads(1, 0),
    ),
    (
        "taskscript 2\nworkers 1\ndepth 200\nstart 0\nstep 1\nrounds 5\n",
        "task a home 0 nice 0 rows 1 init\nrow a 0 kill a next 0\nend\n",
        Reads(1, 0),
    ),
    // Another header.
    ("", "taskscript 3\nworkers 1\n", Fault(1, 1)),
    ("", "taskscript 01\nworkers x\n", Fault(1, 1)),
    ("", "taskscript 1 \n", Fault(1, 1)),
    ("", "\n", Fault(1, 1)),
    // Words that fit no shape, or a line that may not come here.
    (HEADER, "workers\t1\n", Fault(2, 2)),
    (HEADER, "workers 1 1\n", Fault(2, 2)),
    (SETTINGS, "\n", Fault(7, 2)),
    (SETTINGS, " end\n", Fault(7, 2)),
    (SETTINGS, "task a home 0 nice 0 rows 2 \n", Fault(7, 2)),
    (SETTINGS, "task a home 0\tnice 0 rows 2\n", Fault(7, 2)),
    (SETTINGS, "task é home 0 nice 0 rows 2\n", Fault(7, 2)),
    (SETTINGS, "task a home 0 nice 0 rows ²\n", Fault(7, 2)),
    (SETTINGS, "task A home x nice 0 rows 2\n", Fault(7, 2)),
    (SETTINGS, "end\ntaskscript 1\n", Fault(8, 2)),
    (TASK, "end\n", Fault(8, 2)),
    // A word that writes no number.
    (HEADER, "workers 10000000000\n", Fault(2, 3)),
    (HEADER, "workers 1\t\n", Fault(2, 3)),
    (SETTINGS, "task a home -1 nice 0 rows 65\n", Fault(7, 3)),
    (SETTINGS, "event -1 kill b\n", Fault(7, 3)),
    (TASK, "task a home 00 nice 0 rows 1\n", Fault(8, 3)),
    (TASK, "row b x next 0\n", Fault(8, 3)),
    // A name of no task.
    (SETTINGS, "event 10 kill b\n", Fault(7, 4)),
    (TASK, "row b 1 after 0 next 64\n", Fault(8, 4)),
    (TASK, "row a 1 wake b io next 0\n", Fault(8, 4)),
    (ROWS, "event 0 wake b io\n", Fault(10, 4)),
    // The name of another task.
    (TASK, "task a shared nice 2000 rows 0\n", Fault(8, 5)),
    (
        TASK,
        "task b shared nice 0 rows 1\ntask b shared nice 0 rows 1\n",
        Fault(9, 5),
    ),
    // Another row than the next, or no row to go to.
    (TASK, "row a 0 after 0 next 2\n", Fault(8, 6)),
    (
        TASK,
        "task b shared nice 0 rows 1\nrow b 0 after 1 next 0\n",
        Fault(9, 6),
    ),
    (ROW, "row a 0 next 0\n", Fault(9, 6)),
    // An expiry that the task may not have.
    (
        SETTINGS,
        "task s shared nice 0 rows 1\nrow s 0 after 0 next 0\n",
        Fault(8, 7),
    ),
    (
        SETTINGS,
        "tasklet s home 0 class heavy rows 1\nrow s 0 never next 0\n",
        Fault(8, 7),
    ),
    // A number out of its range, or too many.
    (HEADER, "workers 17\n", Fault(2, 8)),
    (HEADER, "workers 1\ndepth 1001\n", Fault(3, 8)),
    (SETTINGS, "task a home 0 nice -1025 rows 2\n", Fault(7, 8)),
    (SETTINGS, "task a home 0 nice 0 rows 65\n", Fault(7, 8)),
    (TASK, "row a 0 after 1073741825 next 0\n", Fault(8, 8)),
    // A text that ends too early; its open piece is not judged.
    ("", "taskscript 1", Fault(1, 9)),
    (HEADER, "", Fault(2, 9)),
    (SETTINGS, "", Fault(7, 9)),
    (SETTINGS, "task a home 0 nice 0 rows 2", Fault(7, 9)),
    (ROWS, "event 0 kill a\nen", Fault(11, 9)),
];

/// Whether the text has this fault.
fn has_fault(alloc: Global, text: &[u8], line: u32, kind: u8) -> bool {
    match Script::read(alloc, text) {
        Ok(_) => false,
        Err(fault) => fault == ScriptError::Refused(ScriptFault { line, kind }),
    }
}

/// The settings, and so many lines of tasks.
fn many_tasks(alloc: Global, count: u32) -> Result<String, AllocError> {
    let mut text = String::from_str(alloc, SETTINGS)?;
    for task in 0..count {
        write!(text, "task t{task} home 0 nice 0 rows 1\n")?;
    }
    Ok(text)
}

/// The settings, and so many letters.
fn many_letters(alloc: Global, count: usize) -> Result<Vec<u8>, AllocError> {
    let letters = vec![in alloc; b'a'; count]?;
    let mut text = Vec::from_slice(alloc, SETTINGS.as_bytes())?;
    text.extend_from_slice(letters.as_slice())?;
    Ok(text)
}

/// A script of one task and so many events.
fn many_events(alloc: Global, count: u32) -> Result<String, AllocError> {
    let mut text = String::from_str(alloc, LONG_FRONT)?;
    for _ in 0..count {
        text.push_str(EVENT)?;
    }
    text.push_str("end\n")?;
    Ok(text)
}

/// Whether the text is a script with so many tasks and events, which is written as this text.
fn reads_back(
    alloc: Global,
    text: &[u8],
    tasks: usize,
    events: usize,
) -> Result<bool, ScriptError> {
    let script = Script::read(alloc, text)?;
    let mut written = Vec::new(alloc);
    script.write(&mut written)?;
    let counted = script.tasks().len() == tasks && script.events().len() == events;
    Ok(counted && written.as_slice() == text)
}

/// Whether the text is what is said of it.
fn is_so(alloc: Global, text: &[u8], verdict: Verdict) -> Result<bool, ScriptError> {
    match verdict {
        Reads(tasks, events) => reads_back(alloc, text, tasks, events),
        Fault(line, kind) => Ok(has_fault(alloc, text, line, kind)),
    }
}

/// The first of the texts that is not what is said of it.
fn first_wrong(
    alloc: Global,
    texts: &[(&str, &str, Verdict)],
) -> Result<Option<String>, ScriptError> {
    for (begin, end, verdict) in texts {
        let text = format!(in alloc; "{begin}{end}")?;
        if !is_so(alloc, text.as_bytes(), *verdict)? {
            return Ok(Some(text));
        }
    }
    Ok(None)
}

#[test]
fn reads_and_writes_scripts_and_names_first_faults(rt: HostRuntime) -> Result<(), Fail> {
    let wrong = first_wrong(rt.alloc(), &TEXTS)?;
    assert!(rt; wrong.is_none(), "{wrong:?}");
    let tasks = many_tasks(rt.alloc(), 4097)?;
    assert!(rt; has_fault(rt.alloc(), tasks.as_bytes(), 4103, 8));
    let letters = many_letters(rt.alloc(), 5_000_000)?;
    assert!(rt; has_fault(rt.alloc(), letters.as_slice(), 7, 8));
    Ok(())
}

#[test]
fn reads_a_script_of_all_its_bytes(rt: HostRuntime) -> Result<(), Fail> {
    let text = many_events(rt.alloc(), 65_533)?;
    assert_eq!(rt; text.len(), 4_194_304);
    assert!(rt; reads_back(rt.alloc(), text.as_bytes(), 1, 65_533)?);
    Ok(())
}

fn crosses_threads<T: Send + Sync>(_value: &T) {}

#[test]
fn scripts_and_next_rows_cross_threads(rt: HostRuntime) -> Result<(), Fail> {
    let text = format!(in rt.alloc(); "{ROWS}end\n")?;
    let script = Script::read(rt.alloc(), text.as_bytes())?;
    crosses_threads(&script);
    let nexts = Nexts::of(rt.alloc(), &script)?;
    crosses_threads(&nexts);
    let shown = format!(in rt.alloc(); "{nexts:?} {:?}", Nexts::none(rt.alloc()))?;
    let lists = "Nexts { lists: [NextRows { rows: [1, 1] }] } Nexts { lists: [] }";
    assert_eq!(rt; shown.as_str(), lists);
    Ok(())
}
