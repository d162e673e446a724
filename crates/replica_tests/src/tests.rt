mod steps;
mod stores;
