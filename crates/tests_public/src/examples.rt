// The examples of the docs: what each of them gives.
mod one_thread;
mod replay;
mod threads;
