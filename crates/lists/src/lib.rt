// Words on lists: parts, tests, tables of numbered refusals, and the little-endian numbers that lists of bytes stand for. Definitions and laws
// alone; there is nothing to run.
#![tactic(auto)]
