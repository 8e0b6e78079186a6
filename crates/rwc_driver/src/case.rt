// A case, read from its line.
use hex::decode;
use std::alloc::Global;
use std::io::{self, ErrorKind};

/// Which calls of a shelf or a sink fail, counted from 0, and how many bytes of its piece each takes at most.
#[derive(Drop)]
pub struct Plan {
    pub fails: Vec<u64>,
    pub most: usize,
}

/// A call of the tool: its words, the files, and how the calls of the shelf and of the two sinks go.
#[derive(Drop)]
pub struct Case {
    pub words: Vec<String>,
    pub files: Vec<(String, Vec<u8>)>,
    pub shelf: Plan,
    pub out: Plan,
    pub err: Plan,
}

impl Plan {
    // No call fails, and each takes all of its piece.
    fn new(alloc: Global) -> Plan {
        Plan {
            fails: Vec::new(alloc),
            most: usize::MAX,
        }
    }

    fn add_failure(&mut self, value: &str) -> io::Result<()> {
        self.fails.push(number(value)?)?;
        Ok(())
    }

    fn set_most(&mut self, value: &str) -> io::Result<()> {
        self.most = number(value)? as usize;
        Ok(())
    }
}

impl Case {
    fn new(alloc: Global) -> Case {
        Case {
            words: Vec::new(alloc),
            files: Vec::new(alloc),
            shelf: Plan::new(alloc),
            out: Plan::new(alloc),
            err: Plan::new(alloc),
        }
    }

    fn add_word(&mut self, alloc: Global, value: &str) -> io::Result<()> {
        self.words.push(String::from_str(alloc, value)?)?;
        Ok(())
    }

    fn add_file(&mut self, alloc: Global, kind: &str, value: &str) -> io::Result<()> {
        let Some((name, content)) = value.split_once(':') else {
            return Err(no_case());
        };
        let name = String::from_str(alloc, name)?;
        self.files.push((name, content_of(alloc, kind, content)?))?;
        Ok(())
    }

    fn add_field(&mut self, alloc: Global, key: &str, value: &str) -> io::Result<()> {
        match key {
            "word" => self.add_word(alloc, value),
            "shelf-fails" => self.shelf.add_failure(value),
            "shelf-takes" => self.shelf.set_most(value),
            "out-fails" => self.out.add_failure(value),
            "out-takes" => self.out.set_most(value),
            "err-fails" => self.err.add_failure(value),
            "err-takes" => self.err.set_most(value),
            _ => self.add_file(alloc, key, value),
        }
    }
}

/// The case of a line; an error is want of memory, or a line that is no case.
pub fn read_case(alloc: Global, line: &str) -> io::Result<Case> {
    let mut case = Case::new(alloc);
    for field in line.split('\t') {
        let Some((key, value)) = field.split_once('=') else {
            return Err(no_case());
        };
        case.add_field(alloc, key, value)?;
    }
    Ok(case)
}

fn no_case() -> io::Error {
    io::Error::from(ErrorKind::InvalidData)
}

fn content_of(alloc: Global, kind: &str, content: &str) -> io::Result<Vec<u8>> {
    match kind {
        "text" => text_bytes(alloc, content),
        "hex" => hex_bytes(alloc, content),
        "zeros" => zeros(alloc, content),
        _ => Err(no_case()),
    }
}

fn zeros(alloc: Global, count: &str) -> io::Result<Vec<u8>> {
    let bytes = vec![in alloc; 0; number(count)? as usize]?;
    Ok(bytes)
}

fn hex_bytes(alloc: Global, digits: &str) -> io::Result<Vec<u8>> {
    match decode(alloc, digits) {
        Ok(bytes) => Ok(bytes),
        Err(_) => Err(no_case()),
    }
}

fn text_bytes(alloc: Global, text: &str) -> io::Result<Vec<u8>> {
    let bytes = text.as_bytes().to_vec(alloc)?;
    Ok(bytes)
}

fn number(digits: &str) -> io::Result<u64> {
    match digits.parse() {
        Ok(number) => Ok(number),
        Err(_) => Err(no_case()),
    }
}
