// Blocks at random, from a fixed generator: valid ones, and ones with a fault. It uses nothing of the product, so that
// what it makes owes nothing to what is tested. For the test programs `test_random_*`.
#![tactic(auto)]

ghost use Rattle.std.specs.Prelude.{◌<◌};

// A mix of kinds, of which each node gets one: every kind alike; more registers and XORs, as in masked blocks; no
// registers; more registers and inputs; mostly registers and XORs; gates of two operands alone; and XORs, with a
// register and a NOT now and then.
#[derive(Clone, Copy)]
pub enum Mix {
    Even,
    Masked,
    Dense,
    Registered,
    Long,
    Gates,
    Xors,
}

// How a block is made: from which state, how many variables it declares and how many its sets may have, its nodes,
// the mix of their kinds, and how far below a node its operands may be. `open` is how many of its variables, from
// variable 0 on, are secret and public by turns, with masks behind them; where it is 0, any variable may be of any
// class.
#[derive(Clone, Copy)]
pub struct Shape {
    pub seed: u32,
    pub variables: usize,
    pub labels: usize,
    pub nodes: usize,
    pub mix: Mix,
    pub near: usize,
    pub open: usize,
}

// A shape in which sets have any declared variables, operands are any nodes below, and variables of any class.
pub fn plain(seed: u32, variables: usize, nodes: usize, mix: Mix) -> Shape {
    Shape {
        seed,
        variables,
        labels: variables,
        nodes,
        mix,
        near: 256,
        open: 0,
    }
}

// The masked mix, but another one once in n times.
pub fn masked_or(mix: Mix, n: usize, seed: u32) -> Mix {
    if pick(seed, n) > 0 { Mix::Masked } else { mix }
}

// The kinds of nodes, as the bytes of their records.
const INPUT: u8 = 2;

const NOT: u8 = 3;

const XOR: u8 = 4;

const AND: u8 = 5;

const OR: u8 = 6;

const REGISTER: u8 = 7;

// The kinds of a mix, each as often as a node is to get it in twelve.
fn kinds_of(mix: Mix) -> [u8; 12] {
    match mix {
        Mix::Even => [
            INPUT, NOT, XOR, AND, OR, REGISTER, INPUT, NOT, XOR, AND, OR, REGISTER,
        ],
        Mix::Masked => [
            INPUT, INPUT, NOT, XOR, XOR, XOR, AND, OR, REGISTER, REGISTER, REGISTER, REGISTER,
        ],
        Mix::Dense => [INPUT, INPUT, NOT, XOR, XOR, XOR, XOR, XOR, AND, AND, OR, OR],
        Mix::Registered => [
            INPUT, INPUT, INPUT, NOT, XOR, AND, OR, REGISTER, REGISTER, REGISTER, REGISTER,
            REGISTER,
        ],
        Mix::Long => [
            INPUT, NOT, XOR, XOR, XOR, XOR, REGISTER, REGISTER, REGISTER, REGISTER, REGISTER,
            REGISTER,
        ],
        Mix::Gates => [XOR, AND, OR, XOR, AND, OR, XOR, XOR, AND, AND, OR, OR],
        Mix::Xors => [
            NOT, XOR, XOR, XOR, XOR, XOR, XOR, XOR, XOR, XOR, XOR, REGISTER,
        ],
    }
}

// Whether every input of a mix is to have a variable other than variable 0, mostly a mask.
fn has_masked_inputs(mix: Mix) -> bool {
    !matches!(mix, Mix::Even | Mix::Dense)
}

// A block as far as it is made, and the state after it. There is room for the longest one, with what a fault may add.
#[derive(Clone, Copy)]
pub struct Made {
    pub seed: u32,
    length: usize,
    bytes: [u8; 1024],
}

impl Made {
    // The bytes of the block.
    pub fn bytes(&self) -> &[u8] {
        &self.bytes[..self.length.min(1024)]
    }
}

// The next state of the generator.
pub fn next(seed: u32) -> u32 {
    seed.wrapping_mul(1664525).wrapping_add(1013904223)
}

// A number below n that a state stands for, or 0 where n is 0. The upper half of the state serves, whose period is
// long.
pub fn pick(seed: u32, n: usize) -> usize
    ensures { result < 65536 }
{
    if n == 0 {
        return 0;
    }
    ((seed / 65536) as usize) % n
}

// The class of a variable; mostly it is a mask.
fn class_of(open: usize, v: usize, seed: u32) -> u8 {
    if v < open {
        return (v % 2 * 2) as u8;
    }
    if open > 0 {
        return 1;
    }
    match pick(seed, 8) {
        0 => 0,
        1 => 2,
        _ => 1,
    }
}

// The variables of a block; variable 0 is secret.
fn variables(shape: Shape) -> Made {
    let mut made = Made {
        seed: shape.seed,
        length: shape.variables % 512 * 2,
        bytes: [0; 1024],
    };
    for v in 0..shape.variables {
        made.seed = next(made.seed);
        made.bytes[v % 512 * 2] = 1;
        made.bytes[v % 512 * 2 + 1] = class_of(shape.open, v, made.seed);
    }
    made.bytes[1] = 0;
    made
}

// The operands of gate i as two bytes, low first. In an open block they are the two nodes before it.
fn operands_of(shape: Shape, i: usize, seed: u32) -> usize {
    let above = i % 256;
    let low = above - shape.near.min(above);
    if shape.open > 0 {
        return low + 256 * (low + 1);
    }
    low + pick(seed, above - low) + 256 * (low + pick(next(seed), above - low))
}

// The set of input i as two bytes, low first. A masked input has a variable other than variable 0, where there is one,
// and in an open block one of its masks, which for two inputs side by side are mostly not the same.
fn set_of(shape: Shape, i: usize, seed: u32) -> usize {
    let labels = shape.labels % 16;
    let any = pick(seed, 1usize << labels);
    let other = next(seed);
    if !has_masked_inputs(shape.mix) || labels < 2 {
        return any;
    }
    if shape.open > 0 {
        let open = shape.open.min(labels - 1);
        let masks = labels - open;
        let mask = open + (i % 3 + pick(other, masks - 1)) % masks % 16;
        return pick(seed, 1usize << open) | (1usize << (mask % 16));
    }
    any | (1usize << ((1 + pick(other, labels - 1)) % 16))
}

// The block with node i; the first two are inputs, and in an open block two of three.
fn with_node(mut made: Made, shape: Shape, i: usize) -> Made {
    let seed = next(made.seed);
    let at = made.length % 1000;
    let drawn = kinds_of(shape.mix)[pick(seed, 12) % 12];
    let kind = if i < 2 || (shape.open > 0 && i % 3 < 2) {
        INPUT
    } else {
        drawn
    };
    let body = if kind == INPUT {
        set_of(shape, i, next(seed))
    } else {
        operands_of(shape, i, next(seed))
    };
    made.bytes[at] = kind;
    made.bytes[at + 1] = (body % 256) as u8;
    made.bytes[at + 2] = (body / 256 % 256) as u8;
    made.length = if kind == NOT || kind == REGISTER {
        at + 2
    } else {
        at + 3
    };
    made.seed = next(next(seed));
    made
}

// A whole block.
pub fn block(shape: Shape) -> Made {
    let mut made = variables(shape);
    for i in 0..shape.nodes {
        made = with_node(made, shape, i);
    }
    let end = made.length % 1000;
    made.bytes[end] = 0;
    made.length = end + 1;
    made
}

// Damages about one block in four: another byte, fewer bytes, a byte behind the end record, a variable before it, or a
// class above 2. The block may stay valid.
pub fn damaged(made: Made) -> Made {
    let first = next(made.seed);
    let second = next(first);
    let whole = made.length % 1000;
    let at = pick(first, whole) % 1000;
    let byte = pick(second, 10) % 10;
    let mut other = made;
    other.seed = next(second);
    match pick(other.seed, 24) {
        0..=2 => other.bytes[at] = byte as u8,
        3 => other.length = at,
        4 => {
            other.bytes[whole] = byte as u8;
            other.length = whole + 1;
        }
        5 => {
            other.bytes[(whole + 999) % 1000] = 1;
            other.bytes[whole] = 1;
            other.bytes[whole + 1] = 0;
            other.length = whole + 2;
        }
        6 => other.bytes[at % 3 * 2 + 1] = (byte + 3) as u8,
        _ => {}
    }
    other
}
