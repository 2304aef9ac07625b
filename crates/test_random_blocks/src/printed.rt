// What each trial prints: the names of its counts, in order.
use test_tools::{Tally, print_counts};

// The checks, by their outcome.
fn checks(tally: Tally) {
    print_counts(
        b"blocks\nanswered\nchecks refused with 1:\nchecks refused with 2:\nchecks refused with 3:\n\
        checks refused with 4:\nchecks refused with 5:\nchecks refused with 6:\nchecks refused with 7:\n\
        checks refused with 8:\nchecks refused with 9:\nchecks refused with 10:\nchecks refused with 11:\n",
        &tally,
    );
}

// The nodes that are marked.
fn marks(tally: Tally) {
    print_counts(
        b"nodes marked for settled signals\nnodes marked for glitches\nnodes marked for glitches alone\n",
        &tally[22..25],
    );
}

// The check with one probe, and the queries.
pub(crate) fn one_probe(tally: Tally) {
    checks(tally);
    print_counts(
        b"nodes\nsets in their families\nlargest family\nfamilies of more than 100 sets\nsettled suspects\n\
        glitch suspects\nclear for glitches\nreported sets with a lower one suspect\nreported sets with a tie\n",
        &tally[13..22],
    );
    marks(tally);
    print_counts(
        b"nodes with two marks that differ\nregisters marked\ninputs with a suspect set, not marked\n\
        most settled marks in a block\nmost glitch marks in a block\nblocks with several settled marks\n\
        blocks with several glitch marks\ngates whose settled pairs were counted\n\
        gates whose glitch pairs were counted\nsettled pairs tried\nglitch pairs tried\nproducts of one pair\n\
        products of 2 to 1024 pairs\nproducts of more\nproducts of 1048576 pairs\nmost pairs tried at a gate\n\
        queries answered\nqueries refused with 1:\nqueries refused with 2:\nqueries refused with 3:\n\
        queries refused with 4:\nqueries refused with 5:\nqueries refused with 6:\nqueries refused with 7:\n\
        queries refused with 8:\nqueries refused with 9:\nqueries refused with 12:\nqueries refused with 13:\n\
        values 1\nfeeding points asked of a node\nmemberships yes\ndifferences\n",
        &tally[25..57],
    );
}

// The check with two probes.
pub(crate) fn two_probes(tally: Tally) {
    checks(tally);
    print_counts(
        b"single suspects\nno pair\npairs found\nlimit spent\nno pair to look at\npairs looked at\n\
        highest position\nlimit just the position\nlimit one below it\nlimit just the number of pairs\n\
        sets of pairs with a lower one suspect\nsets of pairs with a tie\n",
        &tally[41..53],
    );
    marks(tally);
    print_counts(b"differences\n", &tally[56..57]);
}

// Mask settings counted at nodes.
pub(crate) fn nodes(tally: Tally) {
    print_counts(
        b"clear for glitches\ntested nodes of those\nsuspect for glitches\ntested nodes of those\n\
        nodes whose counts differ\nsuspect though no counts differ\ncontradictions\n",
        &tally,
    );
}

// Mask settings counted at pairs of nodes.
pub(crate) fn pairs(tally: Tally) {
    print_counts(
        b"no pair\npairs of nodes counted in those\npair found\ncounts of that pair differ\n\
        counts of some pair differ\npair found though no counts differ\nsingle suspects\ncontradictions\n",
        &tally,
    );
}

// Mask settings counted round gates and registers.
pub(crate) fn clusters(tally: Tally) {
    print_counts(
        b"blocks\nclear gates and registers\nsuspect gates and registers\nclusters of two nodes round clear ones\n\
        clusters of three\nclusters of more\nof all these, with a gate\nwith a register\nwith an input\n\
        clusters round suspect ones\nof those, counts of what feeds them differ\ncounts of their wires differ\n\
        clusters beyond clear ones\nof those, counts of what feeds them differ\ncounts of their wires differ\n\
        differences\ncontradictions\n",
        &tally,
    );
}
