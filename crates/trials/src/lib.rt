// Examples from the rules and bad input of each kind, run on every part.
#![tactic(auto)]

#[cfg(test)]
mod archives;
#[cfg(test)]
mod lines_read;
#[cfg(test)]
mod queues;
#[cfg(test)]
mod rings;
#[cfg(test)]
mod words;
