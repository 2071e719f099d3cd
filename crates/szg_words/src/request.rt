ghost use Rattle.std.specs.Prelude.{◌≡◌, ◌⊎◌, true, false, IfErr, IfOk, IsNone, MatchOption, OnOk, Some, codes, map, option_map};
ghost use Rattle.clap.specs.Matches.{first_value, found_of};
ghost use Rattle.clap.specs.Values.{kind_of as kind_of_error};
ghost use Rattle.szg_words.specs.Requested.{IsActionOf, IsActionOnMen, IsLookUp, IsPlanIn, IsTaskIn, action_of_men, parsed_action, names_men};
ghost use Rattle.szg_words.specs.Chosen.{AsksFor, AsksForNone, IsErrorOf, line_of, has_numbers, has_sizes, has_table_numbers, has_unused, is_given as is_typed};
ghost use Rattle.szg_words.specs.Words.{is_word, number_of_class, number_of_form, parsed_class, parsed_kind, parsed_mover, parsed_part, parsed_side};

use crate::arguments::{Argument, BLOCK, FORM, INDEX, ROUNDS, SIDE, SPAN};
use crate::command_line::{CommandForm, program};
use crate::finding::Finder;
use crate::men::placement_in;
use crate::usage::Usage;
use clap::error::ErrorKind;
use clap::parser::ValueSource;
use clap::{ArgMatches, Error};
use std::alloc::{AllocError, Global};
use szg_values::{Color, Kind, Placement, PlacementFault};

/// The class of a placement for the side to move.
#[derive(Clone, Copy)]
pub enum AskedClass {
    Win,
    Cursed,
    Draw,
    Blessed,
    Loss,
}

impl AskedClass {
    /// The class's number: 2 for a win, 1 for a cursed win, 0, -1 and -2.
    pub fn number(self) -> i8
        ensures { result ≡ number_of_class self }
    {
        match self {
            AskedClass::Win => 2,
            AskedClass::Cursed => 1,
            AskedClass::Draw => 0,
            AskedClass::Blessed => -1,
            AskedClass::Loss => -2,
        }
    }
}

/// The form of a dump.
#[derive(Clone, Copy)]
pub enum DumpForm {
    /// A line for each value.
    Values,
    /// A line for each maximal run of equal values.
    Runs,
}

impl DumpForm {
    /// The form's number in a dump's first line: 1 or 2.
    pub fn number(self) -> u8
        ensures number { result ≡ number_of_form self }
        ensures known { (result ≡ 1) ⊎ (result ≡ 2) }
    {
        match self {
            DumpForm::Values => 1,
            DumpForm::Runs => 2,
        }
    }
}

/// What is asked of a table.
#[derive(Drop)]
pub enum Action {
    Check,
    Show,
    Get(u64),
    /// The value at an index, and the steps by which it is found.
    GetCounted(u64),
    Values,
    Copy,
    /// The table as text.
    Dump(DumpForm),
    /// The index of a placement.
    Index(Placement),
    /// The value of a placement, in a DTZ table in a class.
    Probe(Placement, AskedClass),
    /// The placement of an index.
    Placement(u64),
    /// The words make no placement. Carries why, or None if a word is no man's.
    Unplaced(Option<PlacementFault>),
}

impl Action {
    /// Returns whether it is a look-up: it needs a table's front, and at most one block or the last bytes.
    pub fn is_look_up(&self) -> bool
        ensures yes { (result ≡ true) → IsLookUp self.now }
        ensures no { (result ≡ false) → IsLookUp self.now → ⊥ }
    {
        matches!(
            self,
            Action::Show | Action::Get(_) | Action::Index(_) | Action::Probe(..)
        )
    }
}

/// How a table is to be packed.
#[derive(Clone, Copy)]
pub enum BuildPlan {
    /// With these numbers: a block has 2^block_bits bytes, an entry of the sparse index covers 2^span_bits values, and a
    /// dictionary gets at most `rounds` pairs.
    Fixed {
        block_bits: u8,
        span_bits: u8,
        rounds: u32,
    },
    /// So that it takes few bytes.
    Small,
}

/// What a command line asks for.
#[derive(Drop)]
pub enum Task<'a> {
    /// Something of a table.
    OnTable(Request<'a>),
    /// A table's file, built of a dump.
    Build(BuildPlan),
}

/// A command with its words: the table's name and kind, and a part and side where one is asked for.
#[derive(Drop)]
pub struct Request<'a> {
    pub name: &'a str,
    pub kind: Kind,
    pub part: u8,
    pub side: u8,
    pub action: Action,
}

/// The sizes of a fixed plan.
static SIZES: [Argument; 3] = [BLOCK, SPAN, ROUNDS];

/// The program's name, where no word is given.
static ALONE: [&str; 1] = ["szg"];

/// What a command line on the standard streams asks for. Which word is which argument's value, the finder decides: the
/// task is that of the command and the values that it finds.
pub fn parse<'a, F: Finder>(
    alloc: Global,
    finder: &F,
    words: &'a [&'a str],
) -> Result<Task<'a>, Error>
    ensures queried { IfOk result (AsksFor F.finds (map (λ word. word.now) words.now)) }
    ensures none { IfErr result (λ error. (kind_of_error error ≡ ErrorKind.OutOfMemory) ⊎ AsksForNone F.finds F.refuses (map (λ word. word.now) words.now)) }
{
    let words = line_of(words);
    let form = CommandForm::Streams;
    let matches = finder.find(alloc, words, form)?;
    let Some((command, chosen)) = matches.subcommand() else {
        return Err(missing_command(alloc, form)?);
    };
    let usage = Usage {
        alloc,
        command,
        form,
    };
    check_plan(usage, chosen)?;
    task_in(usage, chosen)
}

/// The words, or the program's name if there is none.
fn line_of<'a>(words: &'a [&'a str]) -> &'a [&'a str]
    ensures { map (λ word. word.now) result.now ≡ line_of (map (λ word. word.now) words.now) }
{
    if words.is_empty() { &ALONE } else { words }
}

/// The error of words that have no command.
pub(crate) fn missing_command(alloc: Global, form: CommandForm) -> Result<Error, AllocError> {
    program(alloc, form)?.error(ErrorKind::MissingSubcommand, "a command is missing")
}

/// Whether an argument's value is this word.
pub(crate) fn is_given(chosen: &ArgMatches<'_>, argument: &str, word: &str) -> bool
    ensures { result ≡ is_word (first_value (found_of chosen.now) argument.now) word.now }
{
    match chosen.get_str(argument) {
        Some(text) => text == word,
        None => false,
    }
}

/// Whether an argument's value is among the words, and no default.
fn is_typed(chosen: &ArgMatches<'_>, argument: &str) -> bool
    ensures { result ≡ is_typed (found_of chosen.now) argument.now }
{
    matches!(
        chosen.value_source(argument),
        Some(ValueSource::CommandLine)
    )
}

/// Returns the first number of a fixed plan that is given with a small plan.
fn unused_by_plan(chosen: &ArgMatches<'_>) -> Option<&'static Argument>
    ensures { MatchOption result (has_unused (found_of chosen.now) ≡ false) (λ argument. has_unused (found_of chosen.now) ≡ true) }
{
    match &SIZES {
        _ if !is_given(chosen, "plan", "small") => None,
        [block, _, _] if is_typed(chosen, "block") => Some(block),
        [_, span, _] if is_typed(chosen, "span") => Some(span),
        [_, _, rounds] if is_typed(chosen, "rounds") => Some(rounds),
        _ => None,
    }
}

/// Checks that no number of a fixed plan is given with a small plan.
pub(crate) fn check_plan(usage: Usage<'_>, chosen: &ArgMatches<'_>) -> Result<(), Error>
    ensures used { OnOk result (has_unused (found_of chosen.now) ≡ false) }
    ensures none { IfErr result (λ error. IsErrorOf ErrorKind.ArgumentConflict error × (has_unused (found_of chosen.now) ≡ true)) }
{
    let Some(argument) = unused_by_plan(chosen) else {
        return Ok(());
    };
    let message = format!(in usage.alloc;
        "the argument '--plan small' cannot be used with '{argument}'"
    )?;
    Err(usage.error(ErrorKind::ArgumentConflict, message.as_str())?)
}

/// The task that a command and its words make.
fn task_in<'a>(usage: Usage<'_>, chosen: &ArgMatches<'a>) -> Result<Task<'a>, Error>
    ensures task { IfOk result (IsTaskIn usage.entry.command.now (found_of chosen.now)) }
    ensures none { IfErr result (λ error. IsErrorOf ErrorKind.ValueValidation error × (has_numbers usage.entry.command.now (found_of chosen.now) ≡ false)) }
{
    if usage.command == "build" {
        return Ok(Task::Build(plan_in(usage, chosen)?));
    }
    let name = chosen.get_str("NAME").unwrap_or("");
    let kind = kind_of(chosen.get_str("KIND"));
    Ok(Task::OnTable(request_on(usage, chosen, name, kind)?))
}

/// Returns how the words ask to pack a table.
pub fn plan_in(usage: Usage<'_>, chosen: &ArgMatches<'_>) -> Result<BuildPlan, Error>
    ensures plan { IfOk result (IsPlanIn (found_of chosen.now)) }
    ensures none { IfErr result (λ error. IsErrorOf ErrorKind.ValueValidation error × (is_word (first_value (found_of chosen.now) (codes "plan")) (codes "small") ≡ false) × (has_sizes (found_of chosen.now) ≡ false)) }
{
    if is_given(chosen, "plan", "small") {
        return Ok(BuildPlan::Small);
    }
    let [block, span, rounds] = &SIZES;
    Ok(BuildPlan::Fixed {
        block_bits: usage.number(chosen, block)? as u8,
        span_bits: usage.number(chosen, span)? as u8,
        rounds: usage.number(chosen, rounds)? as u32,
    })
}

/// What is asked of a table of this name and kind.
pub(crate) fn request_on<'a>(
    usage: Usage<'_>,
    chosen: &ArgMatches<'a>,
    name: &'a str,
    kind: Kind,
) -> Result<Request<'a>, Error>
    ensures name { IfOk result (λ request. request.name.now ≡ name.now) }
    ensures kind { IfOk result (λ request. request.kind ≡ kind) }
    ensures part { IfOk result (λ request. request.part ≡ parsed_part (first_value (found_of chosen.now) (codes "part"))) }
    ensures side { IfOk result (λ request. parsed_side usage.entry.command.now (found_of chosen.now) ≡ Some request.side) }
    ensures action { IfOk result (λ request. IsActionOf usage.entry.command.now (found_of chosen.now) request.action) }
    ensures none { IfErr result (λ error. IsErrorOf ErrorKind.ValueValidation error × (has_table_numbers usage.entry.command.now (found_of chosen.now) ≡ false)) }
{
    let action = if names_men(usage.command) {
        action_on_men(usage.command, chosen)
    } else {
        action_without_men(usage, chosen)?
    };
    static ASKED_SIDE: Argument = SIDE;
    let side = match usage.command {
        "get" | "values" | "placement" => usage.number(chosen, &ASKED_SIDE)? as u8,
        _ => 0,
    };
    Ok(Request {
        name,
        kind,
        part: part_of(chosen.get_str("part")),
        side,
        action,
    })
}

/// Whether a command is asked of a placement's men.
fn names_men(command: &str) -> bool
    ensures { result ≡ names_men command.now }
{
    command == "index" || command == "probe"
}

/// What a command asks of a table, where it names no men.
fn action_without_men(usage: Usage<'_>, chosen: &ArgMatches<'_>) -> Result<Action, Error>
    ensures action { IfOk result (λ action. parsed_action usage.entry.command.now (found_of chosen.now) ≡ Some action) }
    ensures none { IfErr result (λ error. IsErrorOf ErrorKind.ValueValidation error × IsNone (parsed_action usage.entry.command.now (found_of chosen.now))) }
{
    static ASKED_INDEX: Argument = INDEX;
    static ASKED_FORM: Argument = FORM;
    Ok(match usage.command {
        "check" => Action::Check,
        "show" => Action::Show,
        "get" => match usage.number(chosen, &ASKED_INDEX)? {
            index if is_given(chosen, "steps", "true") => Action::GetCounted(index),
            index => Action::Get(index),
        },
        "values" => Action::Values,
        "placement" => Action::Placement(usage.number(chosen, &ASKED_INDEX)?),
        "dump" => Action::Dump(match usage.number(chosen, &ASKED_FORM)? {
            1 => DumpForm::Values,
            _ => DumpForm::Runs,
        }),
        _ => Action::Copy,
    })
}

/// What is asked of the placement of the words, or why they are none.
fn action_on_men(command: &str, chosen: &ArgMatches<'_>) -> Action
    ensures { IsActionOnMen command.now (found_of chosen.now) result }
{
    let mover = mover_of(chosen.get_str("MOVER"));
    let class = class_of(chosen.get_str("class"));
    let men = chosen.get_strs("MAN").unwrap_or(&[]);
    let placement = placement_in(men, mover);
    action_of_men(command == "index", placement, class)
}

/// What is asked of a placement, or why there is none.
fn action_of_men(
    is_index: bool,
    placement: Result<Placement, Option<PlacementFault>>,
    class: AskedClass,
) -> Action
    ensures { result ≡ action_of_men is_index placement class }
{
    match placement {
        Ok(placement) if is_index => Action::Index(placement),
        Ok(placement) => Action::Probe(placement, class),
        Err(fault) => Action::Unplaced(fault),
    }
}

/// The kind of a word.
pub fn kind_of(word: Option<&str>) -> Kind
    ensures { result ≡ parsed_kind (option_map (λ text. text.now) word.entry) }
{
    match word {
        Some("wdl") => Kind::Wdl,
        _ => Kind::Dtz,
    }
}

/// The mover of a word.
fn mover_of(word: Option<&str>) -> Color
    ensures { result ≡ parsed_mover (option_map (λ text. text.now) word.entry) }
{
    match word {
        Some("w") => Color::White,
        _ => Color::Black,
    }
}

/// The class of a word; a win where there is none.
fn class_of(word: Option<&str>) -> AskedClass
    ensures { result ≡ parsed_class (option_map (λ text. text.now) word.entry) }
{
    match word {
        Some("cursed") => AskedClass::Cursed,
        Some("draw") => AskedClass::Draw,
        Some("blessed") => AskedClass::Blessed,
        Some("loss") => AskedClass::Loss,
        _ => AskedClass::Win,
    }
}

/// The part of a letter; a where there is none.
fn part_of(letter: Option<&str>) -> u8
    ensures { result ≡ parsed_part (option_map (λ text. text.now) letter.entry) }
{
    match letter {
        Some("b") => 1,
        Some("c") => 2,
        Some("d") => 3,
        _ => 0,
    }
}
