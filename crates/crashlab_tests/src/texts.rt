//! The worked rows of schedules, reports and traces, of wrong variants and of hunts. Tests alone: each calls public
//! functions of `schedule` or `crashlab`.

#[cfg(test)]
mod crash_all;
#[cfg(test)]
mod cuts;
#[cfg(test)]
mod devices;
#[cfg(test)]
mod drawing_rule;
#[cfg(test)]
mod drawn;
#[cfg(test)]
mod everything;
#[cfg(test)]
mod hunts;
#[cfg(test)]
pub mod kit;
#[cfg(test)]
mod lock;
#[cfg(test)]
mod mailbox;
#[cfg(test)]
mod refusals;
#[cfg(test)]
mod shrinks;
#[cfg(test)]
mod tables;
#[cfg(test)]
mod texts;
#[cfg(test)]
mod traces;
#[cfg(test)]
mod variants;
