//! Calls over readers, writers and files that fail or give and take little, and over a source that is too long. Examples that are data are in `tests_data`.
#![tactic(auto)]

#[cfg(test)]
mod certificates;
#[cfg(test)]
mod devices;
#[cfg(test)]
mod projects;
#[cfg(test)]
mod reads;
#[cfg(test)]
mod sets;
#[cfg(test)]
mod sinks;
#[cfg(test)]
mod writes;
