mod lines;
mod scripts;
