// The worked sheets that are document 01's proved set, and those of request P1: one table, one statement
// (specs/Sheets.antt, proofs/Sheets.antt).
#![tactic(auto)]
