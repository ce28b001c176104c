// Worked examples of the orders, listpacks and stores, as tests. What a store must do is written once, for every store.
#![tactic(auto)]

#[cfg(test)]
mod flat_tables;
#[cfg(test)]
mod listpacks;
#[cfg(test)]
mod orders;
#[cfg(test)]
mod quicklist_nodes;
#[cfg(test)]
mod quicklist_tables;
#[cfg(test)]
mod stores;
