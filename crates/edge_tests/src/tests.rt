mod command_lines;
mod commands;
mod explained;
