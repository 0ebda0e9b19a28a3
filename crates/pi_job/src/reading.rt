// Reads the text of a job, a line after the other.

ghost use Rattle.std.specs.Prelude.{◌≡◌, ◌==◌, map, IfOk};
ghost use Rattle.std.specs.List.{slice_split};
ghost use Rattle.pi_job.specs.Job.{image_numbers, image_of, selection_named, with_one, with_two, with_six, with_fields, with_text, line_added, job_of, SaysJob, IsWrongLine};
ghost use Rattle.pi_job.specs.Telling.{Answers, OnLine};
ghost use Rattle.pi_job.specs.Took.{Adds, Took};

use crate::draft::Draft;
use crate::fault::TextFault;
use crate::job::{ImageLine, Job, Word};
use crate::lines::{first_line, next_line};
use crate::names::{is_dex_name, is_img_name};
use crate::numbers::number_in;
use pi_model::numbers::Addr;
use std::alloc::{AllocError, Global};

/// The fields of a line, which single spaces part.
fn fields<'a>(alloc: Global, line: &'a str) -> Result<Vec<&'a str>, AllocError>
    ensures { IfOk result (λ fields. map (λ x. x.now) fields.items ≡ slice_split (λ b. b == 32) line.now) }
{
    line.split(' ').collect(alloc)
}

/// The selection that a field names, None where it is a dash.
fn selection_named(alloc: Global, name: &str) -> Result<Option<Word>, AllocError>
    ensures { IfOk result (λ selection. selection ≡ selection_named name.now) }
{
    if name == "-" {
        return Ok(None);
    }
    Ok(Some(Word::from_str(alloc, name)?))
}

/// The two bases and the steps of an image line, None where one of them is no such number.
fn image_numbers(at: &str, load: &str, budget: &str) -> Option<(u32, u32, u32)>
    ensures { result ≡ image_numbers at.now load.now budget.now }
{
    let at = number_in(0, 4_294_967_295, at.as_bytes())?;
    let load = number_in(0, 4_294_967_295, load.as_bytes())?;
    let budget = number_in(1, 1_000_000_000, budget.as_bytes())?;
    Some((at as u32, load as u32, budget as u32))
}

/// The image of six fields, None where one of them breaks a rule.
fn image_of(
    alloc: Global,
    dex: &str,
    img: &str,
    at: &str,
    load: &str,
    selection: &str,
    budget: &str,
) -> Result<Option<ImageLine>, AllocError>
    ensures { IfOk result (λ image. image ≡ image_of dex.now img.now at.now load.now selection.now budget.now) }
{
    if !is_dex_name(dex) || !is_img_name(img) || selection.is_empty() {
        return Ok(None);
    }
    let Some((at, load, budget)) = image_numbers(at, load, budget) else {
        return Ok(None);
    };
    Ok(Some(ImageLine {
        dex: Word::from_str(alloc, dex)?,
        img: Word::from_str(alloc, img)?,
        at: Addr(at),
        load: Addr(load),
        selection: selection_named(alloc, selection)?,
        budget,
    }))
}

/// Adds a line of a kind and one field; false where it breaks a rule.
fn add_one(alloc: Global, draft: &mut Draft, kind: &str, value: &str) -> Result<bool, AllocError>
    ensures { Took (with_one draft.old kind.now value.now) draft.new result }
{
    if kind == "dex" {
        draft.add_dex(alloc, value)
    } else if kind == "frames" {
        Ok(draft.add_frames(value))
    } else if kind == "steps" {
        Ok(draft.add_steps(value))
    } else if kind == "main" {
        draft.add_main(alloc, value)
    } else {
        Ok(false)
    }
}

/// Adds a line of a kind and two fields; false where it breaks a rule.
fn add_two(draft: &mut Draft, kind: &str, first: &str, second: &str) -> bool
    ensures { Adds (with_two draft.old kind.now first.now second.now) draft.new result }
{
    kind == "heap" && draft.add_heap(first, second)
}

/// Adds an image, where its kind and its fields keep the rules; false where they do not.
fn add_image(
    job: &str,
    draft: &mut Draft,
    kind: &str,
    image: Option<ImageLine>,
) -> Result<bool, AllocError>
    ensures { Took (with_six job.now draft.old kind.now image) draft.new result }
{
    match image {
        Some(image) if kind == "image" => draft.add_image(job, image),
        _ => Ok(false),
    }
}

/// Adds a line by its fields; false where it breaks a rule.
fn add_fields(
    alloc: Global,
    job: &str,
    draft: &mut Draft,
    fields: &[&str],
) -> Result<bool, AllocError>
    ensures { Took (with_fields job.now draft.old (map (λ x. x.now) fields.now)) draft.new result }
{
    match fields {
        [kind, value] => add_one(alloc, draft, kind, value),
        [kind, first, second] => Ok(add_two(draft, kind, first, second)),
        [kind, dex, img, at, load, selection, budget] => {
            let image = image_of(alloc, dex, img, at, load, selection, budget)?;
            add_image(job, draft, kind, image)
        }
        _ => Ok(false),
    }
}

/// Adds a line; false where it breaks a rule.
fn add_line(alloc: Global, job: &str, draft: &mut Draft, line: &[u8]) -> Result<bool, AllocError>
    ensures { Took (line_added job.now draft.old line.now) draft.new result }
{
    let Ok(text) = std::str::from_utf8(line) else {
        return Ok(false);
    };
    match text.strip_prefix("arg ") {
        Some(arg) => draft.add_arg(alloc, arg),
        None => {
            let fields = fields(alloc, text)?;
            add_fields(alloc, job, draft, fields.as_slice())
        }
    }
}

/// The job that a text says, where the job itself has that name.
///
/// Line where one breaks a rule: the first such line, or the line behind the last where one is wanting.
pub fn read_job(alloc: Global, name: &str, bytes: &[u8]) -> Result<Job, TextFault>
    ensures ok { IfOk result (SaysJob name.now bytes.now) }
    ensures line { OnLine result (IsWrongLine name.now bytes.now) }
    ensures exact { Answers (job_of name.now bytes.now) result }
{
    let mut draft = Draft::new(alloc);
    let mut rest = bytes;
    let mut n = 1u32;
    while !rest.is_empty() {
        let (line, behind) = first_line(rest);
        if !line.is_empty() && !add_line(alloc, name, &mut draft, line)? {
            return Err(TextFault::Line(n));
        }
        rest = behind;
        n = next_line(n);
    }
    match draft.whole() {
        Some(job) => Ok(job),
        None => Err(TextFault::Line(n)),
    }
}
