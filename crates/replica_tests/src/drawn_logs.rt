mod drawn;
mod replayed;
