//! Results of positions over folders of tables in memory.

ghost use Rattle.std.specs.Prelude.{None};

use crate::helpers::{made, position};
use std::alloc::{AllocError, Global};
use std::io::{Error, ErrorKind};
use std::mem::replace;
use std::process::Abort;
use szg_chess::Position;
use szg_file::{Table, read_bytes};
use szg_files::{FileFault, FileSystem, MemoryFile, MemoryFiles};
use szg_fixtures::{
    Fixture, kbvk_wdl_constant, knvkp_wdl_constant, kqvk_dtz_packed, kqvk_wdl_true_but_for_ends,
    kqvk_wdl_unpaired,
};
use szg_io::Bytes;
use szg_place::index_of;
use szg_results::{Folders, ResultStop, board_of, probe_position, stop_text};
use szg_tables::TableSet;
use szg_values::Material;

/// How an answer is asked for.
#[derive(Clone, Copy)]
enum ResultForm {
    Lines,
    Line,
    Object,
}

/// The text of an answer, or of a refusal.
fn found(
    rt: &(impl Abort + Alloc<A = Global>),
    files: &[MemoryFile<'_>],
    words: &[&str],
    form: ResultForm,
    fen: &str,
) -> String {
    let mut system = MemoryFiles { files, failures: 0 };
    let mut folders = Folders::new(rt.alloc(), words);
    let answer = match form {
        ResultForm::Lines => folders.text(rt.alloc(), &mut system, fen),
        ResultForm::Line => folders.line(rt.alloc(), &mut system, fen),
        ResultForm::Object => folders.object(rt.alloc(), &mut system, fen),
    };
    match answer {
        Ok(text) => text,
        Err(stop) => made(rt, stop_text(rt.alloc(), &stop)),
    }
}

/// A position's text, the form, and the answer.
type Case<'a> = (&'a str, ResultForm, &'a str);

/// The folder `t` answers what the cases say.
fn check_cases(
    rt: &(impl Abort + Alloc<A = Global>),
    files: &[MemoryFile<'_>],
    cases: &[Case<'_>],
) {
    for (fen, form, due) in cases {
        let text = found(rt, files, &["t"], *form, fen);
        assert_eq!(rt; text.as_str(), *due, "{fen}");
    }
}

/// A mate in one by g1g7: 7 plies by the table, which counts three moves after the first ply.
const MATE_IN_ONE: &str = "7k/8/5K2/8/8/8/8/6Q1 w - - 0 1";

/// White's queen may be captured.
const QUEEN_LOST: &str = "8/8/8/3Q4/3k4/8/8/K7 b - - 0 1";

/// A table's file at this path.
fn at<'a>(path: &'a str, file: &'a Fixture) -> MemoryFile<'a> {
    MemoryFile {
        path,
        bytes: &file.bytes,
    }
}

/// What a folder with both tables of king and queen against king answers.
const OF_A_FOLDER: [Case<'static>; 13] = [
    (
        MATE_IN_ONE,
        ResultForm::Line,
        "7k/8/5K2/8/8/8/8/6Q1 w - - 0 1\t2\t7\tg1g7\n",
    ),
    // 7 plies more than 94 are too many
    (
        "7k/8/5K2/8/8/8/8/6Q1 w - - 93 80",
        ResultForm::Line,
        "7k/8/5K2/8/8/8/8/6Q1 w - - 93 80\t2\t7\tg1g7\n",
    ),
    (
        "7k/8/5K2/8/8/8/8/6Q1 w - - 94 80",
        ResultForm::Line,
        "7k/8/5K2/8/8/8/8/6Q1 w - - 94 80\t1\t7\tg1g7\n",
    ),
    // the table says a loss
    (
        QUEEN_LOST,
        ResultForm::Line,
        "8/8/8/3Q4/3k4/8/8/K7 b - - 0 1\t0\t0\td4d5\n",
    ),
    (
        "7k/6Q1/5K2/8/8/8/8/8 b - -",
        ResultForm::Lines,
        "result loss\ndtz -1\n",
    ),
    (
        "k7/8/1K6/4B3/8/8/8/8 b - -",
        ResultForm::Lines,
        "result draw\ndtz 0\n",
    ),
    // the capture en passant is the only move, and White wins after it
    (
        "8/8/8/8/4Pp2/5N2/8/5K1k b - e3 0 1",
        ResultForm::Lines,
        "result loss\ndtz -1\nf4e3\tfxe3\tloss\t-1\tzeroing\n",
    ),
    (
        "8/8/8/8/8/2k5/8/K2R4 w - - 0 1",
        ResultForm::Line,
        "refused missing table KRvK wdl",
    ),
    (
        "r3k3/8/8/8/8/8/8/4K3 b q - 0 1",
        ResultForm::Line,
        "refused fen: Castling",
    ),
    // two kings need no table
    (
        "8/8/8/8/8/8/8/K1k5 w - -",
        ResultForm::Lines,
        "result draw\ndtz 0\na1a2\tKa2\tdraw\t0\n",
    ),
    // the capture is the only move, and two kings are left
    (
        "kQ6/8/8/8/8/8/8/7K b - - 0 1",
        ResultForm::Object,
        "{\"category\":\"draw\",\"dtz\":0,\"checkmate\":false,\"stalemate\":false,\"insufficient_material\":false,\"moves\":[\
        {\"uci\":\"a8b8\",\"san\":\"Kxb8\",\"zeroing\":true,\"category\":\"draw\",\"dtz\":0,\"checkmate\":false,\"stalemate\":false,\"insufficient_material\":true}]}\n",
    ),
    (
        "7k/6Q1/5K2/8/8/8/8/8 b - -",
        ResultForm::Object,
        "{\"category\":\"loss\",\"dtz\":-1,\"checkmate\":true,\"stalemate\":false,\"insufficient_material\":false,\"moves\":[]}\n",
    ),
    // no DTZ table of KNvKP is there: it is needed before the move, and not after it
    (
        "8/8/8/8/4Pp2/5N2/8/5K1k b - e3 0 1",
        ResultForm::Object,
        "{\"category\":\"loss\",\"dtz\":-1,\"checkmate\":false,\"stalemate\":false,\"insufficient_material\":false,\"moves\":[\
        {\"uci\":\"f4e3\",\"san\":\"fxe3\",\"zeroing\":true,\"category\":\"win\",\"dtz\":null,\"checkmate\":false,\"stalemate\":false,\"insufficient_material\":false}]}\n",
    ),
];

#[test]
fn results_of_a_folder(rt: HostRuntime) {
    let wdl = made(&rt, kqvk_wdl_true_but_for_ends(rt.alloc()));
    let dtz = made(&rt, kqvk_dtz_packed(rt.alloc()));
    let bishop = made(&rt, kbvk_wdl_constant(rt.alloc()));
    let knight = made(&rt, knvkp_wdl_constant(rt.alloc()));
    let files = [
        at("t/KQvK.rtbw", &wdl),
        at("t/KQvK.rtbz", &dtz),
        at("t/KBvK.rtbw", &bishop),
        at("t/KNvKP.rtbw", &knight),
    ];
    check_cases(&rt, &files, &OF_A_FOLDER);
}

#[test]
fn results_without_distances(rt: HostRuntime) {
    let wdl = made(&rt, kqvk_wdl_true_but_for_ends(rt.alloc()));
    let files = [at("t/KQvK.rtbw", &wdl)];
    check_cases(
        &rt,
        &files,
        &[
            (
                MATE_IN_ONE,
                ResultForm::Line,
                "7k/8/5K2/8/8/8/8/6Q1 w - - 0 1\t2\t-\tg1g7\n",
            ),
            (
                QUEEN_LOST,
                ResultForm::Line,
                "8/8/8/3Q4/3k4/8/8/K7 b - - 0 1\t0\t-\td4d5\n",
            ),
        ],
    );
    // another table's file, and the table's own
    let text = found(
        &rt,
        &files,
        &["t/KRKQvK.rtbw", "t/KQvK.rtbw"],
        ResultForm::Line,
        QUEEN_LOST,
    );
    assert!(rt; text.as_str() == "8/8/8/3Q4/3k4/8/8/K7 b - - 0 1\t0\t-\td4d5\n");
}

#[test]
fn boards(rt: HostRuntime) {
    let board = made(&rt, board_of(rt.alloc(), MATE_IN_ONE));
    let due =
        " . . . . . . . k\n . . . . . . . .\n . . . . . K . .\n . . . . . . . .\n . . . . . . . .\n . . . . . . . .\n . . . . . . . .\n . . . . . . Q .\n\n";
    assert!(rt; board.as_str() == due);
    let none = made(&rt, board_of(rt.alloc(), "9/8/8/8/8/8/8/8 w - -"));
    assert!(rt; none.as_str() == "");
}

/// King and queen against king, WDL: White to move wins, Black to move draws. The bit 0 is the word of White's values, and
/// the bit 1 is no word's. A block of 32 bytes has 256 values; the first is at offset 320.
fn lone_word(alloc: Global) -> Result<Fixture, AllocError> {
    let mut file = kqvk_wdl_unpaired(alloc)?.changed(alloc, &[(20, 1)])?;
    for (at, byte) in file.bytes.iter_mut().enumerate() {
        if 320 <= at && at < 4256 {
            *byte = 0;
        }
    }
    Ok(file)
}

/// The table of a file.
fn table_in(rt: &(impl Abort + Alloc<A = Global>), file: &Fixture) -> Table {
    let material = made(rt, Material::parse(file.name));
    made(rt, read_bytes(rt.alloc(), material, file.kind, &file.bytes))
}

/// The block that has the position's value is damaged, or the next one, which isn't needed.
#[test]
fn a_damaged_block(rt: HostRuntime) {
    let file = made(&rt, lone_word(rt.alloc()));
    let table = table_in(&rt, &file);
    let Some(placement) = position(&rt, MATE_IN_ONE).placement() else {
        panic!(rt; "no placement")
    };
    let block = made(&rt, index_of(&table, &placement)).index / 256;
    for number in [block, block.saturating_add(1)] {
        let offset = number.saturating_mul(32).saturating_add(320);
        let damaged = made(&rt, file.changed(rt.alloc(), &[(offset as usize, 0x80)]));
        let files = [at("t/KQvK.rtbw", &damaged)];
        let text = found(&rt, &files, &["t"], ResultForm::Line, MATE_IN_ONE);
        if number == block {
            let due = made(
                &rt,
                format!(in rt.alloc(); "refused block {number} of KQvK wdl at {offset}"),
            );
            assert_eq!(rt; text.as_str(), due.as_str());
        } else {
            assert!(rt; text.starts_with(MATE_IN_ONE));
        }
    }
}

/// The block of the DTZ table that has the position's number is damaged: it has a value more than its bytes.
#[test]
fn a_damaged_block_of_distances(rt: HostRuntime) {
    let wdl = made(&rt, kqvk_wdl_true_but_for_ends(rt.alloc()));
    let file = made(&rt, kqvk_dtz_packed(rt.alloc()));
    let table = table_in(&rt, &file);
    let Some(placement) = position(&rt, MATE_IN_ONE).placement() else {
        panic!(rt; "no placement")
    };
    let block = made(&rt, index_of(&table, &placement)).index / 256;
    let offset = block.saturating_mul(32).saturating_add(320);
    let length = block.saturating_mul(2).saturating_add(34) as usize;
    let changes = [(length, 0), (length.saturating_add(1), 1), (32, 0x9b)];
    let damaged = made(&rt, file.changed(rt.alloc(), &changes));
    let files = [at("t/KQvK.rtbw", &wdl), at("t/KQvK.rtbz", &damaged)];
    let text = found(&rt, &files, &["t"], ResultForm::Line, MATE_IN_ONE);
    let due = made(
        &rt,
        format!(in rt.alloc(); "refused block {block} of KQvK dtz at {offset}"),
    );
    assert_eq!(rt; text.as_str(), due.as_str());
}

/// White's values are 5, which is no class; White and Black win, so that no move of Black's keeps a win.
#[test]
fn tables_without_an_answer(rt: HostRuntime) {
    let good = made(&rt, kqvk_wdl_true_but_for_ends(rt.alloc()));
    let dtz = made(&rt, kqvk_dtz_packed(rt.alloc()));
    let black = "8/8/8/3k4/8/8/1Q6/K7 b - - 0 1";
    for (change, fen, due) in [
        ((11, 5), MATE_IN_ONE, "refused value in KQvK wdl"),
        ((13, 4), black, "refused contradiction"),
    ] {
        let wdl = made(&rt, good.changed(rt.alloc(), &[change]));
        let files = [at("t/KQvK.rtbw", &wdl), at("t/KQvK.rtbz", &dtz)];
        for form in [ResultForm::Line, ResultForm::Lines, ResultForm::Object] {
            check_cases(&rt, &files, &[(fen, form, due)]);
        }
    }
}

/// A refusal is the same in each form, and the first folder that has a table counts.
#[test]
fn the_first_folder_counts(rt: HostRuntime) {
    let good = made(&rt, kqvk_wdl_true_but_for_ends(rt.alloc()));
    let mut cut = made(&rt, kqvk_wdl_true_but_for_ends(rt.alloc()));
    cut.bytes.truncate(10);
    let files = [at("t/KQvK.rtbw", &good), at("u/KQvK.rtbw", &cut)];
    for (words, due) in [
        (["t", "u"], "8/8/8/3Q4/3k4/8/8/K7 b - - 0 1\t0\t-\td4d5\n"),
        (["u", "t"], "refused table KQvK wdl at 10: Truncated"),
    ] {
        let text = found(&rt, &files, &words, ResultForm::Line, QUEEN_LOST);
        assert_eq!(rt; text.as_str(), due);
    }
    for form in [ResultForm::Line, ResultForm::Lines, ResultForm::Object] {
        let text = found(&rt, &files, &["t"], form, "9/8/8/8/8/8/8/8 w - -");
        assert_eq!(rt; text.as_str(), "refused fen: Letter");
    }
}

/// A file that ends within its front, or before its blocks do.
#[test]
fn a_file_that_ends_early(rt: HostRuntime) {
    for (count, due) in [
        (10, "refused table KQvK wdl at 10: Truncated"),
        (4303, "refused table KQvK wdl at 4303: Truncated"),
    ] {
        let mut file = made(&rt, lone_word(rt.alloc()));
        file.bytes.truncate(count);
        check_cases(
            &rt,
            &[at("t/KQvK.rtbw", &file)],
            &[(MATE_IN_ONE, ResultForm::Line, due)],
        );
    }
}

/// Positions of which no capture and no mate decides.
const UNDECIDED: [&str; 4] = [
    MATE_IN_ONE,
    "8/8/8/3k4/8/8/1Q6/K7 w - - 0 1",
    "8/8/8/3k4/8/8/1Q6/K7 b - - 0 1",
    "4k3/8/8/8/8/2Q5/8/3K4 b - - 0 1",
];

/// The answers of the folder `t` are those of whole tables in memory.
fn check_answers(
    rt: &(impl Abort + Alloc<A = Global>),
    files: &[MemoryFile<'_>],
    tables: &[Table],
) {
    let mut system = MemoryFiles { files, failures: 0 };
    let mut folders = Folders::new(rt.alloc(), &["t"]);
    for fen in UNDECIDED {
        let record = made(rt, Position::parse_fen(fen));
        let due = made(
            rt,
            probe_position(&mut TableSet::new(tables), &record.position, 0, true),
        );
        let Ok(answer) = folders.answer(rt.alloc(), &mut system, &record) else {
            panic!(rt; "{fen}")
        };
        assert!(rt;
            answer.has_distances && answer.distance == due.distance,
            "{fen}"
        );
        assert!(rt; answer.moves.as_slice() == due.moves.as_slice(), "{fen}");
    }
}

#[test]
fn answers_of_whole_tables(rt: HostRuntime) {
    let wdl = made(&rt, kqvk_wdl_true_but_for_ends(rt.alloc()));
    let dtz = made(&rt, kqvk_dtz_packed(rt.alloc()));
    let mut tables = Vec::new(rt.alloc());
    made(&rt, tables.push(table_in(&rt, &wdl)));
    made(&rt, tables.push(table_in(&rt, &dtz)));
    let files = [at("t/KQvK.rtbw", &wdl), at("t/KQvK.rtbz", &dtz)];
    check_answers(&rt, &files, &tables);
}

/// Files of which nothing is specified: a WDL table's file, whose bytes may be others when it is opened again, and no
/// readable DTZ table's.
#[derive(Drop)]
struct Unsteady<'a> {
    /// The bytes when the file is opened next.
    next: &'a [u8],
    /// The bytes afterwards.
    later: &'a [u8],
    /// Why a DTZ table's file isn't opened.
    kind: ErrorKind,
    failures: u64,
}

impl<'a> FileSystem for Unsteady<'a> {
    type File = Bytes<'a>;

    ghost content = { λ system path. None };

    ghost failures = { λ system. system.failures };

    fn open(&mut self, path: &str) -> Result<Bytes<'a>, FileFault> {
        if path.ends_with(".rtbw") {
            return Ok(Bytes::new(replace(&mut self.next, self.later)));
        }
        self.failures = self.failures.saturating_add(1);
        Err(FileFault::System(Error::from(self.kind)))
    }

    fn len(&self, file: &Bytes<'a>) -> Result<u64, FileFault> {
        Ok(file.left().len() as u64)
    }

    fn skip(&self, file: Bytes<'a>, count: u64) -> Result<Bytes<'a>, FileFault> {
        let left = file.left();
        let first = count.min(left.len() as u64) as usize;
        Ok(Bytes::new(&left[first..]))
    }

    fn read_at(
        &mut self,
        path: &str,
        size: u64,
        offset: u64,
        bytes: &mut [u8],
    ) -> Result<(), FileFault> {
        if !path.ends_with(".rtbw") {
            return Err(FileFault::System(Error::from(self.kind)));
        }
        let known = replace(&mut self.next, self.later);
        if known.len() as u64 != size || size < offset {
            return Err(FileFault::Ended);
        }
        let rest = &known[offset as usize..];
        if rest.len() < bytes.len() {
            return Err(FileFault::Ended);
        }
        bytes.copy_from_slice(&rest[..bytes.len()]);
        Ok(())
    }
}

/// The system's error that a probe meets. None if it meets none.
fn error_met(
    rt: &(impl Abort + Alloc<A = Global>),
    bytes: &[u8],
    later: &[u8],
    kind: ErrorKind,
) -> Option<ErrorKind> {
    let mut system = Unsteady {
        next: bytes,
        later,
        kind,
        failures: 0,
    };
    let mut folders = Folders::new(rt.alloc(), &["t"]);
    match folders.line(rt.alloc(), &mut system, MATE_IN_ONE) {
        Err(ResultStop::Failed(FileFault::System(error))) => Some(error.kind()),
        Err(ResultStop::Failed(FileFault::Ended)) => Some(ErrorKind::UnexpectedEof),
        _ => None,
    }
}

/// A file with another length than before is not read, and one that can't be read isn't absent.
#[test]
fn files_that_change_or_fail(rt: HostRuntime) {
    let file = made(&rt, lone_word(rt.alloc()));
    let mut longer = made(&rt, lone_word(rt.alloc()));
    made(&rt, longer.bytes.push(0));
    let absent = ErrorKind::NotFound;
    assert!(rt; error_met(&rt, &file.bytes, &file.bytes, absent).is_none());
    assert!(rt;
        error_met(&rt, &file.bytes, &longer.bytes, absent) == Some(ErrorKind::UnexpectedEof)
    );
    let denied = ErrorKind::PermissionDenied;
    assert!(rt; error_met(&rt, &file.bytes, &file.bytes, denied) == Some(denied));
}
