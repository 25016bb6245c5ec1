//! The sequential solver finds the forest of a list in Borůvka's rounds. `solver` has all steps from a list to its
//! forest, `rounds` the rounds between numbered components, and `components` the labels of vertices that these rounds
//! give. `steps` decides whether one thread or several do the steps between the rounds, and `by_threads` drops links
//! with several threads.
mod by_threads;
mod components;
mod rounds;
mod solver;
mod steps;

pub use components::components_of;
pub use solver::{forest_of, keep_forest, keep_forest_par, plain_forest};
