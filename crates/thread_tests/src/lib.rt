//! The tests of what threads hand to one another, over public calls and with no call of the program: notes, observers, the seats of a
//! manager, and the relay through which seats travel.
#![tactic(auto)]

#[cfg(test)]
mod driving;
#[cfg(test)]
mod machines;
#[cfg(test)]
mod relays;
#[cfg(test)]
mod sleeping;
#[cfg(test)]
mod stepping;
#[cfg(test)]
mod views;
#[cfg(test)]
mod watching;
