// What an edit of an open block is to come to, by the written-out bytes of the block: a new record is read behind those
// of the block, by the reader that stops at the first fault; a node is removed by leaving out its record and lowering
// the operands behind it.
use crate::{Lent, slices};
use test_second_checker::{Fault, Kind, SecondBlock, read};

// A block written out, the end record included.
#[derive(Clone, Copy)]
pub struct Written {
    bytes: [u8; 1024],
    length: usize,
}

impl Written {
    // Nothing yet.
    fn empty() -> Written {
        Written {
            bytes: [0; 1024],
            length: 0,
        }
    }

    // A block of these bytes.
    pub fn of(bytes: &[u8]) -> Written {
        let mut written = Written::empty();
        written.put(bytes);
        written
    }

    // Its bytes.
    pub fn bytes(&self) -> &[u8] {
        &self.bytes[..self.length.min(1024)]
    }

    // Puts a byte behind the others; there is room for every block, and for one record more.
    fn push(&mut self, byte: u8) {
        let at = self.length % 1024;
        self.bytes[at] = byte;
        self.length = at + 1;
    }

    // The same of several bytes.
    fn put(&mut self, bytes: &[u8]) {
        for byte in bytes {
            self.push(*byte);
        }
    }

    // The block as the second checker reads it.
    fn block(&self) -> SecondBlock {
        read(self.bytes())
    }
}

// The block with the first `size` bytes of a record in place of its end, and an end behind them if there are so many.
fn with_record(written: &Written, record: &[u8], size: usize) -> Written {
    let mut next = *written;
    next.length = written.length.saturating_sub(1);
    next.put(&record[..size.min(record.len())]);
    if size <= record.len() {
        next.push(0);
    }
    next
}

// What a record comes to that is offered to a block of so many nodes: the block with it, or the refusal.
pub fn added(written: &Written, nodes: usize, record: &[u8], lent: Lent) -> Result<Written, Fault> {
    let fault = |number| Fault {
        number,
        place: nodes,
    };
    let byte = record.first().ok_or(fault(8))?;
    let kind = Kind::of(*byte)
        .filter(|kind| kind.is_node())
        .ok_or(fault(1))?;
    let size = 1 + kind.body();
    let longer = with_record(written, record, size);
    if let Some(found) = longer.block().fault {
        return Err(fault(found.number));
    }
    if size < record.len() {
        return Err(fault(9));
    }
    slices(nodes.saturating_add(1), lent)?;
    Ok(longer)
}

// The kind, the body and what follows of the record at the front of some bytes, if there is one.
fn split_record(bytes: &[u8]) -> Option<(Kind, &[u8], &[u8])> {
    let (byte, behind) = bytes.split_first()?;
    let kind = Kind::of(*byte)?;
    let (body, rest) = behind.split_at_checked(kind.body())?;
    Some((kind, body, rest))
}

// What the removal of a node from a block of so many comes to: the block without it, or the refusal.
pub fn removed(written: &Written, nodes: usize, node: usize, lent: Lent) -> Result<Written, Fault> {
    let mut shorter = Written::empty();
    let mut user = None;
    let mut number: usize = 0;
    let mut left = written.bytes();
    for _ in 0..left.len() {
        let Some((kind, body, rest)) = split_record(left) else {
            break;
        };
        let has_operands = kind.is_node() && kind != Kind::Input;
        if user.is_none() && has_operands && body.iter().any(|x| *x as usize == node) {
            user = Some(number);
        }
        if !kind.is_node() || number != node {
            shorter.push(kind as u8);
            for x in body {
                let lower = has_operands && node < *x as usize;
                shorter.push(if lower { *x - 1 } else { *x });
            }
        }
        if kind.is_node() {
            number = number.saturating_add(1);
        }
        left = rest;
    }
    if nodes <= node {
        return Err(Fault {
            number: 12,
            place: node,
        });
    }
    slices(nodes, lent)?;
    match user {
        Some(place) => Err(Fault { number: 14, place }),
        None => Ok(shorter),
    }
}
