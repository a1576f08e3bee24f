#![tactic(auto)]

// The paper's worked examples, as facts of the definitions: see specs/Table.antt and proofs/Checked.antt.
