mod answers;
mod reading;
