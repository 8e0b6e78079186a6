//! A driver: each line of standard input makes types and asks one question of them, and gets a line with the answer.
//!
//! A word makes something of what the words before it made: `unit`, `i32`, `i64`, `ptr:L`, `own:L`, `tuple:N` of the last
//! N types, `ref:rw:L` and `cap:r:L` of the last heap type, `some:M` and `rec:Q:S` of the last type, `var:N`, and
//! `fun:B:P:R` of the last R types as results, the P before them as parameters, and the last B binders; each is `unr`, and
//! `lin` makes the last one `lin`. Heap types are `struct:N` of the last N slots (`slot:S` of the last type), `variant:N`,
//! `array` and `exist:Q:S`. Binders are `loc:M` and `type:Q:S`; those that no function took are the context. Arguments are
//! `at:L`, and `given` of the last type.
//!
//! The last word asks: `size`, `qual`, `formed`, `fits:N` and `function` of the last type in the context; `same` of the
//! last two types; `copied`, whether copies of the last type are the same; `instance` and `raised:L:V`, whether what is
//! made of the last type but one is the last type.
#![tactic(auto)]

mod answers;
mod piles;

use crate::answers::{Answer, answer_to};
use rw_types::Qual;
use std::io::{self, BufRead, BufReader, BufWriter, Write};

fn main(rt: HostRuntime) -> io::Result<()> {
    let alloc = rt.alloc();
    let mut out = BufWriter::new(alloc, io::writer(&rt))?;
    for line in BufReader::new(alloc, rt.reader())?.lines(alloc) {
        match answer_to(alloc, line?.as_str()) {
            Answer::Number(number) => writeln!(out, "{number}")?,
            Answer::Truth(is) => writeln!(out, "{is}")?,
            Answer::Qualifier(Qual::Unr) => writeln!(out, "unr")?,
            Answer::Qualifier(Qual::Lin) => writeln!(out, "lin")?,
            Answer::Memory => writeln!(out, "memory")?,
            Answer::Unread => writeln!(out, "unread")?,
        }
    }
    out.flush()
}
