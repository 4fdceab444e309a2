mod base;
mod capabilities;
mod shims;
mod texts;
