mod calls;
mod settings;
