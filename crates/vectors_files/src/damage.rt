// Damaged copies of a file, and what reading them answers.
use crate::drawing::File;
use crate::verdict::verdict;
use draw::bytes::with_byte;
use draw::page::Page;
use std::alloc::AllocError;
use std::fmt::Write;
use std::ops::Range;

const SMALL_FILE: usize = 400;

const DRAWN_CUTS: usize = 40;

const DRAWN_CHANGES: usize = 60;

const DAMAGED_HEADERS: usize = 12;

// The bytes at these places; none where the file is shorter.
fn part(file: &[u8], places: Range<usize>) -> &[u8] {
    file.get(places).unwrap_or(&[])
}

// One line: how the file was damaged, and what reading it answers.
fn note(page: &mut Page, label: &str, place: usize, bytes: &[u8]) -> Result<(), AllocError> {
    let answer = verdict(*page.text.allocator(), bytes)?;
    writeln!(page.text, "{label} {place} {answer}")
}

// The parts of a file, one after the other.
fn note_parts(
    page: &mut Page,
    label: &str,
    place: usize,
    parts: &[&[u8]],
) -> Result<(), AllocError> {
    let mut bytes = Vec::new(*page.text.allocator());
    for part in parts {
        bytes.extend_from_slice(part)?;
    }
    note(page, label, place, &bytes)
}

// The file cut to fewer bytes.
fn write_cut(page: &mut Page, file: &[u8], len: usize) -> Result<(), AllocError> {
    note(page, "cut", len, part(file, 0..len))
}

// A small file cut at every length.
fn write_every_cut(page: &mut Page, file: &[u8]) -> Result<(), AllocError> {
    for len in 0..file.len() {
        write_cut(page, file, len)?;
    }
    Ok(())
}

// A large file cut at drawn lengths.
fn write_drawn_cuts(page: &mut Page, file: &[u8]) -> Result<(), AllocError> {
    for _ in 0..DRAWN_CUTS {
        let len = page.numbers.below(file.len());
        write_cut(page, file, len)?;
    }
    Ok(())
}

// The file with one byte set to a drawn value.
fn write_changes(page: &mut Page, file: &[u8]) -> Result<(), AllocError> {
    for _ in 0..DRAWN_CHANGES {
        let at = page.numbers.below(file.len());
        let value = page.numbers.below(256) as u8;
        let damaged = with_byte(*page.text.allocator(), file, at, value)?;
        note(page, "byte", at, &damaged)?;
    }
    Ok(())
}

// The file with one more in a byte.
fn write_increment(page: &mut Page, file: &[u8], label: &str, at: usize) -> Result<(), AllocError> {
    let value = file.get(at).map_or(1, |byte| byte.wrapping_add(1));
    let damaged = with_byte(*page.text.allocator(), file, at, value)?;
    note(page, label, at, &damaged)
}

// The file with one more in a tag or in one of the length bytes.
fn write_headers(page: &mut Page, file: &File) -> Result<(), AllocError> {
    for start in file.starts.iter().take(DAMAGED_HEADERS) {
        write_increment(page, &file.bytes, "tag", *start)?;
        write_increment(page, &file.bytes, "high", start.saturating_add(1))?;
        write_increment(page, &file.bytes, "low", start.saturating_add(2))?;
    }
    Ok(())
}

// The file with more bytes after its end.
fn write_extension(page: &mut Page, file: &[u8], tail: &[u8]) -> Result<(), AllocError> {
    note_parts(page, "extra", file.len(), &[file, tail])
}

// The file with two fields that follow each other swapped; they begin and end at these places.
fn write_swap(
    page: &mut Page,
    file: &[u8],
    first: usize,
    second: usize,
    end: usize,
) -> Result<(), AllocError> {
    let parts = [
        part(file, 0..first),
        part(file, second..end),
        part(file, first..second),
        part(file, end..file.len()),
    ];
    note_parts(page, "swap", first, &parts)
}

// The file with its first two fields swapped, and its first two cells where it has two.
fn write_swaps(page: &mut Page, file: &File) -> Result<(), AllocError> {
    if let [first, second, third, ..] = file.starts.as_slice() {
        write_swap(page, &file.bytes, *first, *second, *third)?;
    }
    if let [_, _, first, second, third, ..] = file.starts.as_slice() {
        write_swap(page, &file.bytes, *first, *second, *third)?;
    }
    Ok(())
}

// The file with its first field, which has five bytes, twice.
fn write_double(page: &mut Page, file: &[u8]) -> Result<(), AllocError> {
    note_parts(page, "double", 0, &[part(file, 0..5), file])
}

// All damaged copies of a file.
pub fn write_damaged(page: &mut Page, file: &File) -> Result<(), AllocError> {
    let bytes = file.bytes.as_slice();
    if bytes.len() < SMALL_FILE {
        write_every_cut(page, bytes)?;
    } else {
        write_drawn_cuts(page, bytes)?;
    }
    write_changes(page, bytes)?;
    write_headers(page, file)?;
    write_extension(page, bytes, &[0])?;
    write_extension(page, bytes, &[4])?;
    write_extension(page, bytes, bytes)?;
    write_swaps(page, file)?;
    write_double(page, bytes)
}
