mod faults;
mod templates;
