//! Results of positions over folders of tables: `szg probe [--format json] FOLDER.. FEN`.

use std::alloc::Global;
use std::io::{self, BufRead, BufReader, BufWriter, Read, Write};
use std::rt::Files;
use szg_files::{Disk, FileSystem};
use szg_results::{Folders, ResultStop, board_of, stop_text};
use szg_words::{AnswerForm, ProbeWords};

/// Writes the results that a command line asks for, one position's on a terminal below its board; returns whether no position
/// was refused.
pub fn write_results(
    alloc: Global,
    machine: &impl Files,
    asked: ProbeWords<'_>,
    is_terminal: bool,
    input: impl Read + Drop,
    output: impl Write + Drop,
) -> io::Result<bool> {
    let ProbeWords { form, folders, fen } = asked;
    let mut writer = BufWriter::new(alloc, output)?;
    let mut disk = Disk::new(alloc, machine);
    let mut folders = Folders::new(alloc, folders);
    let is_good = if fen == "-" {
        write_lines(alloc, &mut folders, &mut disk, form, input, &mut writer)?
    } else {
        let found = match form {
            AnswerForm::Text => folders.text(alloc, &mut disk, fen),
            AnswerForm::Json => folders.object(alloc, &mut disk, fen),
        };
        if is_terminal && matches!(form, AnswerForm::Text) {
            let board = board_of(alloc, fen)?;
            writer.write_all(board.as_bytes())?;
        }
        write_found(alloc, &mut writer, form, "", found)?
    };
    writer.flush()?;
    Ok(is_good)
}

/// Writes a line for each line of the input; returns whether none is refused.
fn write_lines(
    alloc: Global,
    folders: &mut Folders<'_>,
    system: &mut impl FileSystem,
    form: AnswerForm,
    input: impl Read + Drop,
    writer: &mut impl Write,
) -> io::Result<bool> {
    let mut reader = BufReader::new(alloc, input)?;
    let mut line = String::new(alloc);
    let mut is_good = true;
    for _ in 0..u64::MAX {
        line.clear();
        if reader.read_line(&mut line)? == 0 {
            break;
        }
        let fen = line.trim_end_matches('\n');
        let found = match form {
            AnswerForm::Text => folders.line(alloc, system, fen),
            AnswerForm::Json => folders.object(alloc, system, fen),
        };
        let before = format!(in alloc; "{fen}\t")?;
        is_good = write_found(alloc, writer, form, before.as_str(), found)? && is_good;
    }
    Ok(is_good)
}

/// Writes what was found, or why the position is refused, after `before`; in JSON an object with the field `error`.
/// Returns whether it is not refused.
fn write_found(
    alloc: Global,
    writer: &mut impl Write,
    form: AnswerForm,
    before: &str,
    found: Result<String, ResultStop>,
) -> io::Result<bool> {
    let stop = match found {
        Ok(text) => {
            writer.write_all(text.as_bytes())?;
            return Ok(true);
        }
        Err(stop) => stop,
    };
    let text = stop_text(alloc, &stop)?;
    match form {
        AnswerForm::Text => writeln!(writer, "{before}{text}")?,
        AnswerForm::Json => writeln!(writer, "{{\"error\":\"{text}\"}}")?,
    }
    Ok(false)
}
