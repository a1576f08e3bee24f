#![tactic(auto)]

// Both ends of the sound link and the line between them: demand 3, see specs/World.antt and specs/Demand3.antt.
