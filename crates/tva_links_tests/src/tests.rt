mod ports;
mod routers;
