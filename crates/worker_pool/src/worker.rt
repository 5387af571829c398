use crate::hands::Hand;
use action_manager::Seat;

/// A hand, and the seats that it keeps, whose participants are over.
#[derive(Drop)]
pub struct Worker<M> {
    pub hand: Hand<M>,
    pub kept: Vec<Seat<M>>,
}

/// Some hands, and some vectors of seats that hands keep.
#[derive(Drop)]
pub struct Workers<M> {
    pub hands: Vec<Hand<M>>,
    pub kept: Vec<Vec<Seat<M>>>,
}
