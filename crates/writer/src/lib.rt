// A sheet's writer, as definitions with their proofs: which entries can be written, their bytes, and that the reader reads them back. No function stands here.
#![tactic(auto)]
