// Definitions and theorems of the file in which a structure is parked; the code is in crates storing and loading.
#![tactic(auto)]
