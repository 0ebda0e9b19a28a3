// A file of rows, one or more in a line, with a tab between them. Each subject has its own file, and the head of its module
// states its rows. An empty row and one that begins with # say nothing, and a row that is none is told, so that it differs
// from the line that is wanted. These rows belong to all subjects:
//
//   under TITLE           each line that the rows below tell stands behind this title, or alone where there is none
//   under-digest TITLE    what a row tells is told by the number of its lines and their digest
//   under-short TITLE     where it is long, by its length and its digest
use crate::fault::Fault;
use crate::told::Told;
use crate::words::halves;
use sha1::Sha1;
use std::alloc::Global;
use std::{fs, io};

/// What the rows of a file are about, with what they have said so far.
pub trait Subject {
    /// Follows a row, and adds what it tells.
    fn follow(
        &mut self,
        rt: &HostRuntime,
        verb: &str,
        rest: &str,
        told: &mut Told,
    ) -> Result<(), Fault>;
}

/// How rows are told.
#[derive(Clone, Copy)]
enum Telling {
    Lines,
    Digest,
    Short,
}

/// What stands before the lines of a row.
#[derive(Drop)]
struct Heading {
    title: String,
    telling: Telling,
}

/// Follows the rows of a file.
pub fn follow_rows<S: Subject + Drop>(
    rt: &HostRuntime,
    file: &str,
    mut subject: S,
) -> io::Result<()> {
    let text = fs::read_to_string(rt, file)?;
    let mut heading = Heading {
        title: String::new(rt.alloc()),
        telling: Telling::Lines,
    };
    for line in text.lines() {
        follow_line(rt, file, line, &mut heading, &mut subject)?;
    }
    Ok(())
}

/// Follows the rows of a line, and tells what they tell.
fn follow_line<S: Subject>(
    rt: &HostRuntime,
    file: &str,
    line: &str,
    heading: &mut Heading,
    subject: &mut S,
) -> io::Result<()> {
    for row in line.split('\t') {
        match follow_row(rt, row, heading, subject) {
            Ok(lines) => print!(rt; "{lines}")?,
            Err(Fault::NoRow) => println!(rt; "{file}: no row: {row}")?,
            Err(Fault::Outside(kind)) => return Err(io::Error::from(kind)),
        }
    }
    Ok(())
}

/// Follows a row. The answer is the lines that are told.
fn follow_row<S: Subject>(
    rt: &HostRuntime,
    row: &str,
    heading: &mut Heading,
    subject: &mut S,
) -> Result<String, Fault> {
    let alloc = rt.alloc();
    let (verb, rest) = halves(row).unwrap_or((row, ""));
    match verb {
        "" | "#" => (),
        "under" => *heading = heading_of(alloc, rest, Telling::Lines)?,
        "under-digest" => *heading = heading_of(alloc, rest, Telling::Digest)?,
        "under-short" => *heading = heading_of(alloc, rest, Telling::Short)?,
        _ => {
            let mut told = Told::new(alloc);
            subject.follow(rt, verb, rest, &mut told)?;
            if told.is_begun() {
                return lines_under(alloc, heading, told.as_str());
            }
        }
    }
    Ok(String::new(alloc))
}

fn heading_of(alloc: Global, title: &str, telling: Telling) -> Result<Heading, Fault> {
    let title = String::from_str(alloc, title)?;
    Ok(Heading { title, telling })
}

/// The lines of an answer as they are told under a heading.
fn lines_under(alloc: Global, heading: &Heading, answer: &str) -> Result<String, Fault> {
    let mut short = Told::new(alloc);
    match heading.telling {
        Telling::Lines => short.words(answer)?,
        Telling::Digest => add_lines_digest(&mut short, answer)?,
        Telling::Short => short.short(answer)?,
    }
    let mut lines = String::new(alloc);
    for line in short.as_str().split('\n') {
        add_line(&mut lines, heading.title.as_str(), line)?;
    }
    Ok(lines)
}

/// Adds how many lines there are, and the digest of them, each with its end.
fn add_lines_digest(told: &mut Told, lines: &str) -> Result<(), Fault> {
    let mut hasher = Sha1::new();
    hasher.update(lines.as_bytes());
    hasher.update(b"\n");
    told.value(&lines.split('\n').count())?;
    told.words(" lines ")?;
    told.digits(&hasher.finalize())
}

/// Adds a line behind its title.
fn add_line(lines: &mut String, title: &str, line: &str) -> Result<(), Fault> {
    lines.push_str(title)?;
    if !title.is_empty() {
        lines.push_str(if line.is_empty() { ":" } else { ": " })?;
    }
    lines.push_str(line)?;
    lines.push('\n')?;
    Ok(())
}
