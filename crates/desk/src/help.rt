// `help`: what the program takes and prints, with an example of each command.
use crate::say::say;

// Prints all of it.
pub fn help() {
    say(
        b"./telgouin COMMAND FILE ..

FILE is a block as bytes, in words if its name ends in .txt (blocks/README.md), or - for bytes on standard input (not for
edit, which reads edits there).

  list FILE
    The listing: a line a node with number, kind and how many sets its settled and its glitch family have;
    then the first suspect for settled and for glitching signals, as node and set, or `clear`.
      ./telgouin list blocks/a.txt

  pairs FILE [LIMIT]
    Two probes: the lines `vars`, `settled` and `glitch` of the listing, then `pairs clear COUNT`,
    `pairs suspect I J SET COUNT`, `pairs spent COUNT` where LIMIT pairs were looked at and more remain,
    or `pairs single 0` where a single node is suspect. Without LIMIT all pairs are looked at.
      ./telgouin pairs blocks/b.txt

  why FILE [NODE LAYER SET]
    How a set got into a node's family in layer 0 (settled) or 1 (glitch), a line a step: node, layer, rule, set;
    without NODE LAYER SET that of the first glitch suspect. Then `steps COUNT`.
      ./telgouin why blocks/a.txt
      ./telgouin why blocks/b.txt 4 1 7

  value FILE NODE ASSIGNMENT
    The settled value of a node under an assignment, numbered as sets are.
      ./telgouin value blocks/a.txt 4 5

  feeding FILE NODE
    The inputs and registers that feed a node through gates alone.
      ./telgouin feeding blocks/b.txt 5

  member FILE NODE SET
    Whether a set is in a node's settled family, and whether in its glitch family.
      ./telgouin member blocks/a.txt 4 1

  edit FILE
    Opens the block and reads edits from standard input, a line each: `add` and a record in words, `remove NODE`,
    `list`, `write OUT` (in words if OUT ends in .txt), `quit`. After `add` and `remove` the lines `vars`,
    `settled` and `glitch` of the block as it is now. At the end, with the number of edits that were made,
    `edits clear COUNT`, `edits suspect NODE SET COUNT` for the first glitch suspect, or `edits faulty COUNT` where a
    line was refused, misspelt or could not be obeyed. FILE is not changed, unless `write` names it.
      printf 'remove 4\\nadd reg 3\\nadd xor 4 1\\n' | ./telgouin edit blocks/a.txt

  picture FILE
    The netlist as a graph in the dot language: inputs grey, gates round, registers with a double frame and in
    ranks by their stage, suspect nodes red with their sets, the way of the first suspect's set thick.
      ./telgouin picture blocks/a.txt | dot -Tsvg > a.svg

  help
      ./telgouin help

A set is numbered by the sum of 2 to the power v over its variables v. Fields of a line are parted by one blank;
behind ` # ` stand words for people, with a set as its variables: s0 a secret, m1 a mask, p2 a public.
A block that breaks the record rules gets `refused NUMBER PLACE` from every command, bad use a line from `expected` on.

The exit status goes by the command's own closing line and by how the program ended, together:

  list      0 `glitch clear`, 1 `glitch NODE SET`
  pairs     0 `pairs clear`, 1 `pairs suspect`, `pairs spent` or `pairs single`
  edit      0 `edits clear`, 1 `edits suspect`, 2 `edits faulty`, whatever the block then is, at a terminal too
  why       0 `steps`, whether or not there is a suspect
  picture   0 `}`, whether or not there is a suspect
  value     0 `value`
  feeding   0 `feeding`
  member    0 `member`
  help      0 the last line below

exit status 0: clear, or answered
exit status 1: a suspect, or pairs of which not all were looked at
exit status 2: everything else: refused, bad use, not read, not written, cut off, or a program that died
",
    );
}
