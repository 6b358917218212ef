// Document 01's examples, proved as one table: the table in specs/, its theorem in proofs/.

#![tactic(auto)]
