//! Command lines.

use crate::asserts::none_wrong;
use gd_words::{Command, CycleQuestion, Job, Usage, read};
use go_grid::Colour;
use sgf_go::Settings;
use std::alloc::{AllocError, Global};

/// Nothing set beside the file.
const NOTHING_SET: Settings = Settings {
    after: None,
    komi: None,
    turn: None,
    black_prisoners: 0,
    white_prisoners: 0,
    territory: false,
};

/// `solve c` without options.
const PLAIN: Job<'static> = Job {
    command: Command::Solve("c"),
    settings: NOTHING_SET,
    positions: 100_000,
    parts: 500,
    engine: None,
    tax: false,
    cycles: false,
    keep_board: false,
};

/// Words between tildes, and their jobs.
static JOBS: [(&str, Job<'static>); 24] = [
    ("solve~c", PLAIN),
    (
        "gtp~--board~yes",
        Job {
            command: Command::Gtp,
            keep_board: true,
            ..PLAIN
        },
    ),
    (
        "solve~c~--cycles~yes",
        Job {
            command: Command::WithCycles(CycleQuestion::Solve, "c"),
            cycles: true,
            ..PLAIN
        },
    ),
    (
        "play~c~--cycles~yes",
        Job {
            command: Command::Play("c"),
            cycles: true,
            ..PLAIN
        },
    ),
    (
        "gtp~--cycles~yes",
        Job {
            command: Command::Gtp,
            cycles: true,
            ..PLAIN
        },
    ),
    (
        "gtp~--cycles~yes~--board~yes",
        Job {
            command: Command::Gtp,
            cycles: true,
            keep_board: true,
            ..PLAIN
        },
    ),
    (
        "solve~-",
        Job {
            command: Command::Solve("-"),
            ..PLAIN
        },
    ),
    (
        "safe~--komi",
        Job {
            command: Command::Safe("--komi"),
            ..PLAIN
        },
    ),
    (
        "values~-",
        Job {
            command: Command::Values("-"),
            ..PLAIN
        },
    ),
    (
        "play~--",
        Job {
            command: Command::Play("--"),
            ..PLAIN
        },
    ),
    (
        "calc~^ + *",
        Job {
            command: Command::Calc("^ + *"),
            ..PLAIN
        },
    ),
    (
        "calc~-~--parts~1",
        Job {
            parts: 1,
            command: Command::Calc("-"),
            ..PLAIN
        },
    ),
    (
        "trial~0000000007",
        Job {
            command: Command::Trial(7),
            ..PLAIN
        },
    ),
    (
        "trial~4294967295",
        Job {
            command: Command::Trial(4_294_967_295),
            ..PLAIN
        },
    ),
    (
        "solve~c~--parts~4000~--positions~1",
        Job {
            positions: 1,
            parts: 4_000,
            ..PLAIN
        },
    ),
    (
        "safe~c~--white-prisoners~999999~--after~0~--black-prisoners~0000000001",
        Job {
            settings: Settings {
                after: Some(0),
                black_prisoners: 1,
                white_prisoners: 999_999,
                ..NOTHING_SET
            },
            command: Command::Safe("c"),
            ..PLAIN
        },
    ),
    (
        "play~c~--as~black~--komi~-6.5~--positions~1000000~--turn~white~--parts~1",
        Job {
            settings: Settings {
                komi: Some(-13),
                turn: Some(Colour::White),
                ..NOTHING_SET
            },
            positions: 1_000_000,
            parts: 1,
            engine: Some(Colour::Black),
            command: Command::Play("c"),
            ..PLAIN
        },
    ),
    ("solve~c~--tax~yes", Job { tax: true, ..PLAIN }),
    (
        "values~c~--tax~no",
        Job {
            command: Command::Values("c"),
            ..PLAIN
        },
    ),
    (
        "gtp",
        Job {
            command: Command::Gtp,
            ..PLAIN
        },
    ),
    (
        "board~c~--territory~yes",
        Job {
            settings: Settings {
                territory: true,
                ..NOTHING_SET
            },
            command: Command::Board("c"),
            ..PLAIN
        },
    ),
    (
        "solve~c~--tax~yes~--territory~no",
        Job { tax: true, ..PLAIN },
    ),
    (
        "gtp~--territory~yes",
        Job {
            settings: Settings {
                territory: true,
                ..NOTHING_SET
            },
            command: Command::Gtp,
            ..PLAIN
        },
    ),
    (
        "gtp~--parts~1~--positions~2",
        Job {
            positions: 2,
            parts: 1,
            command: Command::Gtp,
            ..PLAIN
        },
    ),
];

/// Words between tildes that are outside the grammar.
static FAULTY: [&str; 53] = [
    "",
    "solve",
    "solve~",
    "solve~c~--komi",
    "solve~c~--komi~0.25",
    "solve~c~--komi~",
    "solve~c~--komi~ 6",
    "solve~c~--komi~1000000",
    "solve~c~--komi=6",
    "solve~c~--parts~0",
    "solve~c~--parts~4001",
    "solve~c~--positions~0",
    "solve~c~--positions~1000001",
    "solve~c~--after~1000000",
    "solve~c~--after~-1",
    "solve~c~--after~",
    "solve~c~--after~00000000001",
    "solve~c~--black-prisoners~1000000",
    "solve~c~--turn~red",
    "solve~c~--turn~Black",
    "solve~c~--turn~black~--turn~white",
    "solve~c~--turn~black~--turn~black",
    "solve~c~--as~black",
    "safe~c~--parts~5",
    "safe~c~--positions~5",
    "solve~c~--~d",
    "solve~c~d",
    "play~-",
    "play~c~--as~red",
    "trial~x",
    "trial~",
    "trial~4294967296",
    "trial~7~--parts~5",
    "trial~7~--tax~no",
    "safe~c~--tax~yes",
    "solve~c~--tax~2",
    "solve~c~--territory~maybe",
    "solve~c~--territory~no~--territory~no",
    "play~c~--territory~yes~--tax~yes",
    "trial~7~--territory~no",
    "calc~0~--territory~no",
    "calc",
    "calc~",
    "calc~0~--positions~5",
    "gtp~c",
    "gtp~c~--parts~5",
    "gtp~--tax~no",
    "gtp~--as~black",
    "gtp~--board~maybe",
    "play~c~--board~yes",
    "mend~c",
    "--help",
    "--version",
];

/// The words between the tildes of a text. An empty text has none.
fn words_between(alloc: Global, text: &str) -> Result<Vec<&str>, AllocError> {
    let mut words = Vec::new(alloc);
    if text.is_empty() {
        return Ok(words);
    }
    for word in text.split('~') {
        words.push(word)?;
    }
    Ok(words)
}

/// Whether the words have the job, or none.
fn are_read(alloc: Global, text: &str, job: Result<Job<'_>, Usage>) -> bool {
    match words_between(alloc, text) {
        Ok(words) => read(words.as_slice()) == job,
        Err(_error) => false,
    }
}

/// The first words with a job that have another.
fn wrong_job(alloc: Global) -> Option<usize> {
    for (at, row) in JOBS.iter().enumerate() {
        if !are_read(alloc, row.0, Ok(row.1)) {
            return Some(at);
        }
    }
    None
}

/// The first faulty words that are read.
fn wrong_faulty(alloc: Global) -> Option<usize> {
    for (at, words) in FAULTY.iter().enumerate() {
        if !are_read(alloc, words, Err(Usage)) {
            return Some(at);
        }
    }
    None
}

#[test]
fn jobs(rt: HostRuntime) {
    none_wrong(&rt, wrong_job(rt.alloc()));
}

#[test]
fn faulty_words(rt: HostRuntime) {
    none_wrong(&rt, wrong_faulty(rt.alloc()));
}
