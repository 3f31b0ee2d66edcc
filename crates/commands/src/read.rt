//! From a line of the text to what it commands.
ghost use Rattle.std.specs.Prelude.{◌≡◌, MatchResult};
ghost use Rattle.commands.specs.Lines.{Follows, Commands, Faulty};

use super::command::Command;
use super::values::{branch, earth, law, node, repeat, variables};
use text::{Fault, Line, TextLine, read_line};

/// What a line that was read commands.
pub fn command_of(line: Line<'_>) -> Command
    ensures { Follows line.entry result }
{
    match line {
        Line::Node(fields) => node(fields),
        Line::Variables(fields) => variables(fields),
        Line::Branch(fields) => branch(fields),
        Line::Earth(fields) => earth(fields),
        Line::Law(fields) => Command::Law(law(fields)),
        Line::Repeat(fields) => repeat(fields),
        Line::Comment { .. } | Line::Empty { .. } => Command::Nothing,
    }
}

/// What the line commands, or where it goes wrong.
pub fn read_command(line: TextLine<'_>) -> Result<Command, Fault>
    ensures { MatchResult result (λ v. Commands line.entry.bytes.now v) (λ f. Faulty line.entry.bytes.now f.column) }
{
    let read = read_line(line)?;
    Ok(command_of(read))
}
