mod outside;
mod places;
