//! The run of a program, once for every layer: threads, points, schedules and outcomes, whatever
//! activations and memory are made of; and the law that where one language follows another
//! activation by activation, its runs are answered by runs of that other one.
#![tactic(auto)]
