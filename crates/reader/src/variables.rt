//! The first section of a rule text: the variables.
ghost use Rattle.std.specs.Prelude.{◌≡◌, ◌*◌, ◌≤◌, IfOk, vec_items};
ghost use Rattle.words.specs.Lines.{left, lines_of};
ghost use Rattle.conditions.specs.Variables.{var_of, vars_of};
ghost use Rattle.reader.specs.Answers.{Forms, Tells};
ghost use Rattle.reader.specs.Meanings.{vars_in};
ghost use Rattle.reader.specs.VariableLines.{numbers, declaration, rising, variable, product, section_variables};

use crate::fault::ReadFault;
use columns::source::MOST_VARIABLES;
use conditions::variable::{Variable, is_declared};
use numbering::number::{LEAST_VALUES, MOST_VALUES};
use rules::list::MOST_STATES;
use std::alloc::Global;
use words::fault::WordFault;
use words::line::Line;
use words::text_reader::TextReader;
use words::word::{is_name, number_of};

/// Whether each is below `size`, and above the one before.
fn is_rising(values: &[u16], size: u16) -> bool
    ensures { result ≡ rising 0 size values.now }
{
    values.is_sorted_by(|a, b| *a < *b) && values.iter().all(|v| *v < size)
}

/// The numbers that the rest of the line is.
fn numbers(line: &mut Line<'_>, heap: Global) -> Result<Vec<u16>, ReadFault>
    ensures { Forms vec_items (numbers (left line.old)) line.old.number result }
{
    let fault = WordFault::Form(line.number);
    let mut out = Vec::new(heap);
    while let Some(token) = line.next_token() {
        let n = number_of(token.text).ok_or(fault)?;
        out.push(n)?;
    }
    Ok(out)
}

/// A name, a size and start values.
fn declaration<'a>(line: &mut Line<'a>, heap: Global) -> Result<Variable<&'a [u8]>, ReadFault>
    ensures { Forms var_of (declaration (left line.old)) line.old.number result }
{
    let fault = WordFault::Form(line.number);
    let name = line.next_token().ok_or(fault)?;
    let second = line.next_token().ok_or(fault)?;
    let starts = numbers(line, heap)?;
    if starts.is_empty() || !is_name(name.text) {
        return Err(ReadFault::Word(fault));
    }
    let size = number_of(second.text).ok_or(fault)?;
    Ok(Variable {
        name: name.text,
        size,
        starts,
    })
}

/// A variable behind those known, whose sizes have the product `states`.
fn variable<'a>(
    reader: &mut TextReader<'a>,
    heap: Global,
    known: &[Variable<&'a [u8]>],
    states: usize,
) -> Result<Variable<&'a [u8]>, ReadFault>
    requires small { states ≤ 4096 }
    requires product { states ≡ product (vars_of known.now) }
    ensures tells { Tells var_of (variable (vars_of known.now) reader.old.line (lines_of reader.old)) result reader.new }
    ensures bounded { IfOk result (λ v. states * v.size ≤ 4096) }
{
    let mut line = reader.next_line()?;
    let number = line.number;
    let v = declaration(&mut line, heap)?;
    if !(LEAST_VALUES..=MOST_VALUES).contains(&v.size) {
        return Err(ReadFault::Limit(number));
    }
    if is_declared(known, v.name) {
        return Err(ReadFault::Twice(number));
    }
    if !is_rising(&v.starts, v.size) {
        return Err(ReadFault::Value(number));
    }
    if states * usize::from(v.size) > MOST_STATES {
        return Err(ReadFault::Product(number));
    }
    Ok(v)
}

/// The section: a heading, and a line for each variable.
pub(crate) fn variables<'a>(
    reader: &mut TextReader<'a>,
    heap: Global,
) -> Result<Vec<Variable<&'a [u8]>>, ReadFault>
    ensures { Tells vars_in (section_variables reader.old.line (lines_of reader.old)) result reader.new }
{
    let count = reader.heading(b"variables")?;
    if !(1..=MOST_VARIABLES).contains(&(count as usize)) {
        return Err(ReadFault::Limit(reader.line));
    }
    let mut known = Vec::new(heap);
    let mut states = 1;
    // Kept: each line is read against the variables before it and their states, so a chain would carry both in a fold.
    for _i in 0..count {
        let v = variable(reader, heap, &known, states)?;
        states *= usize::from(v.size);
        known.push(v)?;
    }
    Ok(known)
}
