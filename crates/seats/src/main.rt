// Shows a coach's seats before and after a swap, and both maps' fingerprints.
//
//     seats QUADWORD POINT < MAP
//
// QUADWORD is the swap, a byte matrix, and POINT the fingerprint's point, each in hexadecimal. The map on standard input has one
// byte a row, at most 32,768 rows: eight rows are a word, and a fingerprint is of at most 4,096 words. Nothing is drawn before the
// whole map has been read and its length tested.
#![tactic(auto)]

use answers::Refusal;
use matrix::ByteMatrix;
use seat_lines::{LIMIT, ROWS, fingerprint_rows, row_line};
use std::env::FillError;
use std::io;
use std::io::Read;
use std::rt::Env;

// Whether there is an argument i, of any length. Argument 0 is the program's name.
fn is_given(rt: &impl Env, i: usize) -> bool {
    !matches!(rt.arg(i, &mut []), Err(FillError::NotPresent))
}

// Argument i as a number, which has at most sixteen digits.
fn argument(rt: &impl Env, i: usize) -> Option<u64> {
    // Kept: std's `arg` fills a buffer and answers how much.
    let mut text = [0; 16];
    let n = rt.arg(i, &mut text).ok()?;
    hexadecimal::parse_hex(&text[..n])
}

fn too_long(rt: &impl Print, why: Refusal) -> io::Result<()> {
    println!(rt;
        "{why}: the map has more than {ROWS} rows, and a fingerprint is of at most {LIMIT} words of eight rows"
    )
}

fn show_print(rt: &impl Print, when: &str, print: Result<u64, Refusal>) -> io::Result<()> {
    match print {
        Ok(value) => println!(rt; "fingerprint {when:<6}  {value:016x}"),
        Err(why) => too_long(rt, why),
    }
}

// The whole job: shows the rows, swaps each, and shows both fingerprints.
fn show(rt: &impl Print, swap: ByteMatrix, point: u64, rows: &mut [u8]) -> io::Result<()> {
    let before = fingerprint_rows(rows, point);
    println!(rt; "  row  before      after")?;
    for (i, row) in rows.iter_mut().enumerate() {
        let after = swap.apply(*row);
        rt.write_all(&row_line(i + 1, *row, after))?;
        *row = after;
    }
    show_print(rt, "before", before)?;
    show_print(rt, "after", fingerprint_rows(rows, point))
}

// Reads until `rows` is full, the input ends or a read fails, and answers the rows that were read.
fn read_rows<'a>(input: &mut impl Read, rows: &'a mut [u8]) -> &'a mut [u8] {
    let mut done = 0;
    // Kept: std's `read_exact` says nothing of the rows that came before the input ended, and `read_to_end` needs a heap.
    while done < rows.len() {
        match input.read(&mut rows[done..]) {
            Ok(n @ 1..) => done += n,
            _ => break,
        }
    }
    &mut rows[..done]
}

// Reads the map. Where nothing more comes after it, it is shown.
fn read_and_show(rt: &(impl Input + Print), swap: ByteMatrix, point: u64) -> io::Result<()> {
    let mut input = rt.reader();
    // Kept: an array and no Vec: README says that `seats` allocates nothing, so that it cannot run out of memory.
    let mut map = [0; ROWS];
    let rows = read_rows(&mut input, &mut map);
    match input.read(&mut [0]) {
        Ok(0) => show(rt, swap, point, rows),
        Ok(_) if rows.len() == ROWS => too_long(rt, Refusal::TooManyWords),
        _ => println!(rt; "seats: the map could not be read to its end"),
    }
}

fn main(rt: HostRuntime) -> io::Result<()> {
    if !is_given(&rt, 2) || is_given(&rt, 3) {
        return println!(rt;
            "usage: seats QUADWORD POINT < MAP   (both in hexadecimal; the map has one byte a row)"
        );
    }
    let Some(quadword) = argument(&rt, 1) else {
        return println!(rt;
            "seats: the first argument, the swap's quadword, must be 1 to 16 hexadecimal digits"
        );
    };
    let Some(point) = argument(&rt, 2) else {
        return println!(rt;
            "seats: the second argument, the fingerprint's point, must be 1 to 16 hexadecimal digits"
        );
    };
    read_and_show(&rt, ByteMatrix::from_quadword(quadword), point)
}
