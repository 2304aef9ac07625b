// Makes the products at the gates of an answered block once more, to ask how many pairs are tried, and counts the sets
// of its families. Numbers and products are compared with those of the second checker: as many pairs are tried as the
// lengths of its two lists have for their product.
ghost use Rattle.std.specs.Prelude.{◌≡◌, ◌<◌, ◌≤◌, length};

use crate::compare::DIFFERENCES;
use test_expected::{Work, families_differ};
use test_second_checker::{Kind, Second, SecondNode};
use test_tools::{Tally, count, count_if, raise};

// What is counted, in the order of the names that are printed: for each layer the products, and the pairs tried for
// them; then the products by how many pairs they have, and the most pairs of one.
const PRODUCTS: usize = 32;

const PAIRS: usize = 34;

const CLASSES: usize = 36;

const MOST_PAIRS: usize = 40;

// The part of the work bytes that holds a family.
fn part_of(layer: usize, i: usize) -> usize
    ensures { result < 400 }
{
    i % 200 * 2 + layer % 2
}

// The bytes of a family.
fn family_of(work: &Work, layer: usize, i: usize) -> &[u8]
    ensures { length result.now ≡ 128 }
{
    let from = part_of(layer, i) * 128;
    &work[from..from + 128]
}

// The families of two nodes as the operands of a product, and something else where the product goes.
fn operands(work: &Work, layer: usize, first: usize, second: usize) -> [u8; 384] {
    let mut parts = [255u8; 384];
    parts[..128].copy_from_slice(family_of(work, layer, first));
    parts[128..256].copy_from_slice(family_of(work, layer, second));
    parts
}

// Makes the product at a gate, and puts what the gate makes of it into its family: with both operands and, at bit 0,
// the empty set, where they belong to it. Gives how many pairs were tried.
fn make_product(work: &Work, node: SecondNode, layer: usize, i: usize, made: &mut Work) -> usize {
    let mut parts = operands(work, layer, node.first, node.second);
    let tried = family_products::product(&mut parts, 2, 0, 1);
    let spreads = layer > 0 || node.kind != Kind::Xor;
    let from = part_of(layer, i) * 128;
    for j in 0..128 {
        let both = parts[j] | parts[128 + j];
        made[from + j] = parts[256 + j] | if spreads { both } else { 0 };
    }
    if spreads {
        made[from] |= 1;
    }
    tried
}

// How many pairs the lists of a gate's operands have.
fn pairs_at(second: &Second, node: SecondNode, layer: usize) -> usize {
    let rows = second.family(layer, node.first).sets().len();
    let columns = second.family(layer, node.second).sets().len();
    rows * columns
}

// One pair, at most as many as there are sets, more, and all there may be.
fn class_of(pairs: usize) -> usize
    ensures { result ≤ 3 }
{
    match pairs {
        0 | 1 => 0,
        2..=1024 => 1,
        1048576 => 3,
        _ => 2,
    }
}

// Counts a product for which so many pairs were tried, and are to be.
fn count_pairs(tally: &mut Tally, layer: usize, tried: usize, pairs: usize) {
    count(tally, PRODUCTS + layer % 2, 1);
    count(tally, PAIRS + layer % 2, tried);
    count(tally, CLASSES + class_of(tried), 1);
    count_if(tally, DIFFERENCES, tried != pairs);
    raise(tally, MOST_PAIRS, tried);
}

// Goes over the families of a block that is answered, with the work bytes as the check left them: each is compared by
// its size and, at a gate, by the product.
pub(crate) fn compare_products(tally: &mut Tally, second: &Second, work: &Work) {
    let mut made = *work;
    for layer in 0..2 {
        for (i, node) in second.block.nodes().iter().enumerate() {
            let size = families::size(work, part_of(layer, i));
            count_if(
                tally,
                DIFFERENCES,
                size != second.family(layer, i).sets().len(),
            );
            if node.kind.is_gate() {
                let tried = make_product(work, *node, layer, i, &mut made);
                count_pairs(tally, layer, tried, pairs_at(second, *node, layer));
            }
        }
    }
    count_if(tally, DIFFERENCES, families_differ(made, second));
}
